/// A case: its name, and its steps in their order.
#[derive(Drop)]
pub(crate) struct Case {
    pub(crate) name: String,
    /// The line of its name in the file, from 1 on.
    pub(crate) line: usize,
    pub(crate) steps: Vec<Step>,
}

/// A step: its words, its input, and the bytes that it is to give.
#[derive(Drop)]
pub(crate) struct Step {
    /// The line of its words in the file, from 1 on.
    pub(crate) line: usize,
    pub(crate) words: String,
    pub(crate) input: Vec<u8>,
    pub(crate) wanted: Vec<u8>,
}

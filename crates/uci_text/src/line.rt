use plane_io::{Items, Text};

/// A command, as the words of which it is made.
#[derive(Drop)]
pub struct Line {
    /// The number of the line on which its first word begins, from 1.
    pub line: u32,
    /// The values of its words, at least one.
    pub words: Items<Text>,
}

/// The greatest number of present devices.
pub const MOST_DEVICES: u64 = 4096;

/// The greatest number of addresses and of routes of an answer.
pub const MOST_IN_ANSWER: u64 = 64;

/// Why an event is refused.
#[derive(Clone, Copy)]
pub enum Refusal {
    /// No interface has that name.
    NoInterface,
    /// No radio has that name.
    NoRadio,
    /// The number is not that of the open request, which is `current`, and 0 where there is none.
    Stale { given: u64, current: u64 },
    /// No device of that name is present.
    NoDevice,
    /// The name of a device that comes is taken.
    Known,
    /// An answer of a radio has another number of ports than its request has rows.
    WrongPorts { wanted: u64 },
    /// A list is longer than this number allows.
    Limit { number: u64 },
}

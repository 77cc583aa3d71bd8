use crate::StatusCode;

/// How a connection ends.
#[derive(Clone, Copy, Debug, PartialEq, Eq)]
pub enum ConnectionEnd {
    /// Without a refusal.
    Closed,
    /// With this one.
    Refused(StatusCode),
}

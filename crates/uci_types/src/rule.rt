use crate::Datatype;
use plane_io::Text;

/// A rule for the sections of a type: which values an option has in each of them.
#[derive(Drop)]
pub struct Rule {
    /// The type of the sections.
    pub kind: Text,
    /// The name of the option.
    pub option: Text,
    /// Which values the option may have, or each item of it where it is a list.
    pub datatype: Datatype,
    /// The datatype as it is printed.
    pub shown: Text,
    /// Whether the option may not be absent.
    pub required: bool,
}

use plane_io::Text;

/// A command, with the number of the line on which its first word begins.
#[derive(Drop)]
pub enum Cmd {
    /// `package NAME` or `p NAME`.
    Package {
        line: u32,
        name: Text,
    },
    /// `config TYPE`, `config TYPE NAME` or the same with `c`: a section, whose name may be missing
    /// or empty.
    Config {
        line: u32,
        kind: Text,
        name: Option<Text>,
    },
    /// `option NAME VALUE` or `o NAME VALUE`; where the value is missing, it is empty.
    Item {
        line: u32,
        name: Text,
        value: Text,
    },
    /// `list NAME VALUE` or `l NAME VALUE`; where the value is missing, it is empty.
    ListItem {
        line: u32,
        name: Text,
        value: Text,
    },
}

use plane_io::{Items, Text};

/// The value of an option: a text, or a list of texts.
#[derive(Drop)]
pub enum Value {
    One(Text),
    Many(Items<Text>),
}

/// An option of a section.
#[derive(Drop)]
pub struct Opt {
    pub name: Text,
    pub value: Value,
}

/// A section of a package.
#[derive(Drop)]
pub struct Section {
    /// The name that the text gave it, or that [`crate::anonymous_name`] makes for it.
    pub name: Text,
    /// Whether the text gave it no name.
    pub anonymous: bool,
    /// Its type.
    pub kind: Text,
    pub options: Items<Opt>,
}

/// A configuration file as a tree.
#[derive(Drop)]
pub struct Package {
    pub name: Text,
    pub sections: Items<Section>,
    /// How many sections were added to it, those included that were removed again.
    pub made: u64,
}

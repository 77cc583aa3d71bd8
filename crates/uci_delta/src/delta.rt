ghost use Rattle.std.specs.Prelude.{◌↔◌, IsTrue};
ghost use Rattle.uci_delta.specs.Shape.{HasShape};

use plane_io::Text;

/// What a delta does to a section, or to an option in it.
#[derive(Drop)]
pub enum Change {
    /// The section gets this type, and a named one is added where there is none; or the option gets
    /// this value, and an empty value removes it.
    Set(Text),
    /// The section or the option goes.
    Remove,
    /// An anonymous section of this type is added at the end.
    Add(Text),
    /// The section or the option gets this name, and the section is named from then on.
    Rename(Text),
    /// The section gets this place among the others, in decimal digits: from 0, and as the last one
    /// where the place is beyond.
    Reorder(Text),
    /// The option gets this item behind those that it has.
    ListAdd(Text),
    /// Each item of the option that is equal to this one goes.
    ListDel(Text),
}

/// A staged change: of a section of a package, or of an option in it.
#[derive(Drop)]
pub struct Delta {
    /// The package's name.
    pub package: Text,
    /// The section's name, also where it is anonymous.
    pub section: Text,
    /// The option's name, where the change is one of an option.
    pub option: Option<Text>,
    pub change: Change,
}

impl Delta {
    /// Whether a section has such a change, or an option where the delta names one.
    pub fn has_shape(&self) -> bool
        ensures { IsTrue result ↔ HasShape self.now }
    {
        match &self.change {
            Change::Set(_) | Change::Remove | Change::Rename(_) => true,
            Change::Add(_) | Change::Reorder(_) => self.option.is_none(),
            Change::ListAdd(_) | Change::ListDel(_) => self.option.is_some(),
        }
    }
}

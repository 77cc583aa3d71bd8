ghost use Rattle.std.specs.Prelude.{◌≡◌, IfOk};
ghost use Rattle.uci_tree.specs.Slots.{section_of};

use crate::Section;
use crate::options::Options;
use plane_io::{Memory, Text};
use std::alloc::Global;

/// A section while its commands are read.
#[derive(Drop)]
pub struct DraftSection {
    pub name: Text,
    pub anonymous: bool,
    pub kind: Text,
    pub options: Options,
}

impl DraftSection {
    /// Gives the section with the options that are there.
    pub fn finish(self, alloc: Global) -> Result<Section, Memory>
        ensures { IfOk result (λ section. section ≡ section_of self) }
    {
        Ok(Section {
            name: self.name,
            anonymous: self.anonymous,
            kind: self.kind,
            options: self.options.finish(alloc)?,
        })
    }
}

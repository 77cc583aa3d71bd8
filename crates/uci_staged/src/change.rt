ghost use Rattle.std.specs.Prelude.{◌≡◌};
ghost use Rattle.uci_staged.specs.Change as spec;

use uci_delta::Delta;

/// A change that a holder has staged, of the package that a file of a disk holds.
#[derive(Drop)]
pub struct StagedChange {
    /// The session whose change it is, and 0 for the command line.
    pub holder: u128,
    /// The number of the package's file.
    pub file: u32,
    pub delta: Delta,
}

impl StagedChange {
    /// Whether it is one of that holder, of that package.
    pub fn is_of(&self, holder: u128, file: u32) -> bool
        ensures { result ≡ spec.is_of holder file self.now }
    {
        self.holder == holder && self.file == file
    }
}

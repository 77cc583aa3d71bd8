// Laws of the definitions. Each body is empty, and the contract is the law.
ghost use Rattle.uci_tree.specs.declared.package.Package.{Package};
ghost use Rattle.net_conf.specs.Conf.{conf};
ghost use Rattle.net_rules.specs.Sound.{HasSoundLevels, HasSoundNames, HasSoundVlans, IsSound};

/// The levels of the names that are read: whatever two packages say, a name that no fault makes
/// unavailable is on the eighth level at most, and above the names that it stands on.
pub fn levels_that_are_read_are_sound()
    ensures { (network wireless : Package) → HasSoundLevels (conf network wireless) }
{}

/// The names that are read: what a name stands on has a row, a port has one owner, and of the VLANs
/// that no fault makes unavailable there is one of an identifier over a name.
pub fn names_that_are_read_are_sound()
    ensures { (network wireless : Package) → HasSoundNames (conf network wireless) }
{}

/// The VLANs of bridges that are read: of the rows that are not passed over a bridge has one of an
/// identifier, a row has one entry of a port, and one entry of a port on a bridge gives it its
/// PVID.
pub fn vlans_that_are_read_are_sound()
    ensures { (network wireless : Package) → HasSoundVlans (conf network wireless) }
{}

/// Whatever a `network` package and a `wireless` one say, the rows that are read keep all that the
/// laws on what a network wants ask of rows.
pub fn rows_that_are_read_are_sound()
    ensures { (network wireless : Package) → IsSound (conf network wireless) }
{}

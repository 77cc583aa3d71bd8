ghost use Rattle.std.specs.Prelude.{◌≡◌, ◌<◌, ◌↔◌, IsTrue, length};
ghost use Rattle.std.specs.List.{list_all};
ghost use Rattle.plane_disk.specs.Names.{is_package_byte, IsPackageName, IsPlaced, AreDiskNames};

use plane_io::Text;
use std::cmp::Ordering;

/// Whether the byte may stand in the name of a package: a letter, a digit, `_` or `-`.
fn may_stand(byte: u8) -> bool
    ensures { result ≡ is_package_byte byte }
{
    byte.is_ascii_alphanumeric() || byte == b'_' || byte == b'-'
}

/// Whether every byte may stand in the name of a package.
fn all_may_stand(name: &[u8]) -> bool
    ensures { result ≡ list_all is_package_byte name.now }
{
    name.iter().all(|byte| may_stand(*byte))
}

/// Whether the bytes are the name of a package of which a folder can hold the file, 1 to 255 bytes
/// long.
pub fn is_package_name(name: &[u8]) -> bool
    ensures { IsTrue result ↔ IsPackageName name.now }
{
    if name.is_empty() || name.len() > 255 {
        return false;
    }
    all_may_stand(name)
}

/// Whether a name is that of a package, which comes before the next one in byte order.
fn is_placed(names: &[Text], file: usize) -> bool
    requires { file < length names.now }
    ensures { IsTrue result ↔ IsPlaced names.now file }
{
    if !is_package_name(names[file].as_bytes()) {
        return false;
    }
    if file + 1 == names.len() {
        return true;
    }
    names[file].cmp(&names[file + 1]) == Ordering::Less
}

/// Whether these are the names of the files of a disk: `.plane-gates` and `.plane-snapshot`, and
/// then packages in byte order, each once.
pub fn are_disk_names(names: &[Text]) -> bool
    ensures { IsTrue result ↔ AreDiskNames names.now }
{
    if names.len() < 2 {
        return false;
    }
    if names[0].as_bytes() != b".plane-gates".as_slice() {
        return false;
    }
    if names[1].as_bytes() != b".plane-snapshot".as_slice() {
        return false;
    }
    for file in 2..names.len() {
        if !is_placed(names, file) {
            return false;
        }
    }
    true
}

ghost use Rattle.std.specs.Prelude.{◌↔◌, IsTrue};
ghost use Rattle.snap_disk.specs.Phase.{IsPackageFile, ArePackageFiles};

use crate::body::MOST_BYTES;
use plane_io::Text;

/// A file of a disk by its number, and its bytes.
#[derive(Drop)]
pub struct NewFile {
    pub file: u32,
    pub bytes: Text,
}

/// Until when an apply waits, in seconds, and whose it is.
#[derive(Clone, Copy)]
pub struct Pending {
    pub deadline: u64,
    pub holder: u128,
}

fn is_package_file(count: u32, file: &NewFile) -> bool
    ensures { IsTrue result ↔ IsPackageFile count file.now }
{
    2 <= file.file && file.file < count && file.bytes.as_bytes().len() <= MOST_BYTES
}

/// Whether all are packages of a disk of that many files, each of at most 1,048,576 bytes.
pub fn are_package_files(count: u32, files: &[NewFile]) -> bool
    ensures { IsTrue result ↔ ArePackageFiles count files.now }
{
    for file in files {
        if !is_package_file(count, file) {
            return false;
        }
    }
    true
}

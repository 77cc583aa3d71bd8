ghost use Rattle.std.specs.Prelude.{◌≡◌, ◌≤◌, ◌<◌, length, IfSome};
ghost use Rattle.snap_disk.specs.Body.{number_of, has_number};

use crate::NewFile;
use plane_disk::Disk;

/// The number of the package file of that name.
pub(crate) fn number_of<D: Disk>(disk: &D, name: &[u8]) -> Option<u32>
    ensures is { result ≡ number_of (D.view disk.now).names name.now }
    ensures file { IfSome result (λ file. (2 ≤ file) × (file < length (D.view disk.now).names)) }
{
    for file in 2..disk.count() {
        if disk.name(file) == name {
            return Some(file);
        }
    }
    None
}

/// Whether one of the files has the number.
pub(crate) fn has_number(files: &[NewFile], number: u32) -> bool
    ensures { result ≡ has_number files.now number }
{
    files.iter().any(|file| file.file == number)
}

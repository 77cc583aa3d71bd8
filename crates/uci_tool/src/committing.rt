//! `commit`.
ghost use Rattle.std.specs.Prelude.{◌≡◌, ◌<◌, length, slice_index_or, IfOk};
ghost use Rattle.uci_store.specs.Store.{names_of};
ghost use Rattle.uci_tool.specs.Answers.{Changes, Carries, Writes, IsOpen, ended_by};
ghost use Rattle.uci_tool.specs.Commit as spec;
ghost use Rattle.uci_tool.specs.Folder.{folder_of};
ghost use Rattle.uci_tool.specs.Passes.{commit_passes, step_to};
ghost use Rattle.uci_tool.specs.Stops.{StaysOrStops};

use crate::Stop;
use crate::seeing::COMMAND_LINE;
use crate::stop::stop_of;
use plane_disk::Disk;
use plane_io::{Memory, Text};
use std::alloc::Global;
use uci_cli::Refusal;
use uci_store::Store;

/// `commit P`.
pub fn commit_package<D: Disk, T: Disk>(
    alloc: Global,
    store: &mut Store,
    files: &mut D,
    staged: &mut T,
    name: &[u8],
) -> Result<(), Stop>
    requires { IsOpen store.old (D.view files.old) (T.view staged.old) }
    ensures changes { Changes result (folder_of store.old) (folder_of store.new)
        (spec.commit_package (folder_of store.old) name.now) }
    ensures writes { Writes result store.old store.new
        (D.view files.old) (D.view files.new) (T.view staged.old) (T.view staged.new) }
    ensures images { StaysOrStops store.old D.view files.old files.new
        (step_to (folder_of store.old)
        (spec.commit_package (folder_of store.old) name.now)) }
{
    match store.commit(alloc, files, staged, COMMAND_LINE, name) {
        Ok(()) => Ok(()),
        Err(error) => Err(stop_of(error)),
    }
}

/// `commit` of each package, one after another, up to the first that is refused. It tells why that
/// was.
pub fn commit_each<D: Disk, T: Disk>(
    alloc: Global,
    store: &mut Store,
    files: &mut D,
    staged: &mut T,
) -> Result<Option<Refusal>, Stop>
    requires { IsOpen store.old (D.view files.old) (T.view staged.old) }
    ensures carries { Carries result
        (λ refusal. spec.commit_each (folder_of store.old) (names_of store.old)
        ≡ record { refusal = refusal; after = folder_of store.new })
        (folder_of store.new) (commit_passes (folder_of store.old) (names_of store.old)) }
    ensures writes { Writes result store.old store.new
        (D.view files.old) (D.view files.new) (T.view staged.old) (T.view staged.new) }
    ensures images { StaysOrStops store.old D.view files.old files.new
        (commit_passes (folder_of store.old) (names_of store.old)) }
{
    for place in 0..store.packages().len() {
        let Ok(name) = name_at(store, place) else {
            return Err(Stop::Memory);
        };
        match commit_package(alloc, store, files, staged, name.as_bytes()) {
            Ok(()) => {}
            Err(stop) => return ended_by(stop),
        }
    }
    Ok(None)
}

/// How a run of commits ends that was stopped: with the refusal, or short.
fn ended_by(stop: Stop) -> Result<Option<Refusal>, Stop>
    ensures { result ≡ ended_by stop }
{
    match stop {
        Stop::Refused(refusal) => Ok(Some(refusal)),
        Stop::DiskFailed => Err(Stop::DiskFailed),
        Stop::Memory => Err(Stop::Memory),
    }
}

/// The name of the package at that place.
fn name_at(store: &Store, place: usize) -> Result<Text, Memory>
    requires { place < length (names_of store.now) }
    ensures { IfOk result (λ name. name ≡ slice_index_or (names_of store.now) place name) }
{
    store.packages()[place].copy()
}

//! A command without an input.
ghost use Rattle.std.specs.Prelude.{[]};
ghost use Rattle.uci_tool.specs.Alone.{ReportsWords};
ghost use Rattle.uci_tool.specs.Answers.{Carries, Writes, IsOpen};
ghost use Rattle.uci_tool.specs.Folder.{folder_of};
ghost use Rattle.uci_tool.specs.Passes.{uci_passes};
ghost use Rattle.uci_tool.specs.Stops.{StaysOrStops};

use crate::Stop;
use crate::report::Report;
use crate::tool::carry;
use plane_disk::Disk;
use plane_io::Text;
use std::alloc::Global;
use uci_cli::read_words;
use uci_store::Store;

/// Carries one command of `uci` out, with an empty input, and gives its report, or `None` where the
/// words ask for no command. The words are without `uci` itself.
///
/// # Errors
///
/// `DiskFailed` only where a disk failed. `Memory`: of a command that takes several steps the first
/// ones may be done. A refusal is in the report.
pub fn carry_words<D: Disk, T: Disk>(
    alloc: Global,
    words: &[Text],
    store: &mut Store,
    files: &mut D,
    staged: &mut T,
) -> Result<Option<Report>, Stop>
    requires { IsOpen store.old (D.view files.old) (T.view staged.old) }
    ensures carries { Carries result
        (ReportsWords words.now (folder_of store.old) (folder_of store.new))
        (folder_of store.new) (uci_passes words.now (folder_of store.old) []) }
    ensures writes { Writes result store.old store.new
        (D.view files.old) (D.view files.new) (T.view staged.old) (T.view staged.new) }
    ensures images { StaysOrStops store.old D.view files.old files.new
        (uci_passes words.now (folder_of store.old) []) }
{
    let Ok(asked) = read_words(alloc, words) else {
        return Err(Stop::Memory);
    };
    let Some(command) = &asked.command else {
        return Ok(None);
    };
    match carry(alloc, &asked.options, store, files, staged, command, &[]) {
        Ok(report) => Ok(Some(report)),
        Err(stop) => Err(stop),
    }
}

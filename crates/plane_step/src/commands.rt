//! Commands of OpenWrt's `uci` as lines of a script.
ghost use Rattle.std.specs.Prelude.{◌≡◌, []};
ghost use Rattle.std.specs.Option.{option_map};
ghost use Rattle.uci_tool.specs.Answers.{IsOpen};
ghost use Rattle.uci_tool.specs.Folder.{folder_of};
ghost use Rattle.uci_tool.specs.Passes.{uci_passes};
ghost use Rattle.uci_tool.specs.Stops.{StaysOrStops};
ghost use Rattle.plane_step.specs.Means as spec;
ghost use Rattle.plane_step.specs.Faults.{faults_of};
ghost use Rattle.plane_step.specs.StoreKept.{StaysOn};
ghost use Rattle.plane_step.specs.LineDone.{CarriesUci, TellsReport};

use crate::answer::refuse_line;
use crate::stop::Stop;
use plane_disk::Disk;
use plane_io::Text;
use script_lines::LineError;
use std::alloc::Global;
use step_net::{Told, tell_text};
use uci_cli::Refusal;
use uci_store::Store;
use uci_tool::{Report, carry_words};

/// Carries a command of `uci` out, with an empty input. What it prints is shown, and then it may be
/// refused. Words that request for none are a bad line of this number.
pub(crate) fn carry_uci<D: Disk, T: Disk>(
    alloc: Global,
    store: &mut Store,
    files: &mut D,
    staged: &mut T,
    number: u32,
    words: &[Text],
) -> Result<Told, Stop>
    requires { IsOpen store.old (D.view files.old) (T.view staged.old) }
    ensures carries { CarriesUci number words.now (folder_of store.old) (folder_of store.new)
        (faults_of (D.view files.old) (D.view files.new) (T.view staged.old) (T.view staged.new))
        result }
    ensures disks { StaysOn result store.old store.new
        (D.view files.old) (D.view files.new) (T.view staged.old) (T.view staged.new) }
    ensures images { StaysOrStops store.old D.view files.old files.new
        (uci_passes words.now (folder_of store.old) []) }
{
    match carry_words(alloc, words, store, files, staged) {
        Ok(report) => tell_report(alloc, number, report),
        Err(uci_tool::Stop::DiskFailed) => Err(Stop::DiskFailed),
        Err(_) => Err(Stop::Memory),
    }
}

// What is to be told of a command.
fn tell_report(alloc: Global, number: u32, report: Option<Report>) -> Result<Told, Stop>
    ensures { TellsReport number report result }
{
    let told = match report {
        Some(report) => tell_text(alloc, report.output, refusal_of(report.refusal)),
        None => refuse_line(alloc, number),
    };
    match told {
        Ok(told) => Ok(told),
        Err(_) => Err(Stop::Memory),
    }
}

// The refusal of a command, as a line tells it.
fn refusal_of(refusal: Option<Refusal>) -> Option<LineError>
    ensures { result ≡ option_map spec.line_error refusal }
{
    match refusal {
        Some(refusal) => Some(line_error(refusal)),
        None => None,
    }
}

fn line_error(refusal: Refusal) -> LineError
    ensures { result ≡ spec.line_error refusal }
{
    match refusal {
        Refusal::NotFound => LineError::NotFound,
        Refusal::Invalid => LineError::Invalid,
        Refusal::Duplicate => LineError::Duplicate,
        Refusal::Waiting => LineError::Waiting,
        Refusal::NoPackage => LineError::NoPackage,
        Refusal::Parse { .. } => LineError::Parse,
        Refusal::TooLarge => LineError::TooLarge,
    }
}

//! The whole command.
ghost use Rattle.std.specs.Prelude.{ℕ, ◌≡◌, ◌≢◌, ◌≤◌, ◌⊎◌, List, [], false, length};
ghost use Rattle.plane_io.specs.declared.input.TheConstants.{INPUT_LIMIT as MOST};
ghost use Rattle.snap_disk.specs.Images.{SameDisk};
ghost use Rattle.uci_staged.specs.Kept.{Follows};
ghost use Rattle.uci_store.specs.Store.{has_failed, IsOnFiles, IsOnStaged};
ghost use Rattle.uci_cli.specs.Command.{reads_input};
ghost use Rattle.uci_tool.specs.Answers.{Carries, Writes, IsOpen, carried_as};
ghost use Rattle.uci_tool.specs.Cut as spec;
ghost use Rattle.uci_tool.specs.Done.{carried, batch_of};
ghost use Rattle.uci_tool.specs.Ends.{Ends, IsInput, IsTold, end_of, reads, source_of, sink_of};
ghost use Rattle.uci_tool.specs.Ends.{streams_of};
ghost use Rattle.uci_tool.specs.Folder.{folder_of};
ghost use Rattle.uci_tool.specs.Passes.{passes, batch_passes, uci_passes};
ghost use Rattle.uci_tool.specs.Reading.{lines_in};
ghost use Rattle.uci_tool.specs.Runs as runs;
ghost use Rattle.uci_tool.specs.Stops.{CommandStops, StaysOrStops, StopsAmong};

use crate::Stop;
use crate::importing::import;
use crate::line::{carry_lines, carry_out, change};
use crate::report::Report;
use crate::stop::stop_of_text;
use plane_disk::Disk;
use plane_io::{INPUT_LIMIT, InputError, Sink, Source, Text, read_to_end};
use std::alloc::Global;
use uci_cli::{Command, DISK_FAILED, OUT_OF_MEMORY, Options, TOO_LARGE, USAGE, read_words};
use uci_store::Store;
use uci_text::read_lines;

/// How a run of `uci` ended.
#[derive(Clone, Copy)]
pub struct UciEnd {
    /// 0, 1 refused, 2 usage, 3 read, 4 write, 5 disk, 8 memory, 10 a long input.
    pub status: u8,
    /// The number of the refusal behind a status of 1, in `batch` of the first one, and else 0.
    pub refusal: u8,
}

/// Why a run was cut short.
#[derive(Clone, Copy)]
enum Cut {
    TooLong,
    ReadFailed,
    WriteFailed,
    DiskFailed,
    Memory,
}

impl Cut {
    fn status(self) -> u8
        ensures { result ≡ spec.cut_status self }
    {
        match self {
            Cut::ReadFailed => 3,
            Cut::WriteFailed => 4,
            Cut::DiskFailed => 5,
            Cut::Memory => 8,
            Cut::TooLong => 10,
        }
    }

    fn text(self) -> &'static [u8]
        ensures { result.now ≡ spec.cut_text self }
    {
        match self {
            Cut::ReadFailed | Cut::WriteFailed | Cut::DiskFailed => DISK_FAILED,
            Cut::Memory => OUT_OF_MEMORY,
            Cut::TooLong => TOO_LARGE,
        }
    }
}

/// Carries one command of `uci` out over a store and its two disks: the words are without `uci`
/// itself.
pub fn uci<D: Disk, T: Disk, S: Source, O: Sink, E: Sink>(
    alloc: Global,
    words: &[Text],
    store: &mut Store,
    files: &mut D,
    staged: &mut T,
    input: &mut S,
    out: &mut O,
    err: &mut E,
) -> UciEnd
    requires { IsOpen store.old (D.view files.old) (T.view staged.old) }

    // How the run ends, and what it leaves.
    ensures ended { Ends words.now (folder_of store.old) (folder_of store.new)
        (streams_of S.Source input.old input.new O.Sink out.old out.new E.Sink err.old err.new)
        (D.view files.old) (D.view files.new) (T.view staged.old) (T.view staged.new) result }

    // The store stays on its disks, and no call of it has failed, unless the run tells that a disk
    // did.
    ensures files { IsOnFiles store.new (D.view files.new) }
    ensures staged { IsOnStaged store.new (T.view staged.new) }
    ensures ready { result.status ≢ 5 → has_failed store.new ≡ false }
    ensures same { SameDisk (D.view files.old) (D.view files.new) }
    ensures follows { Follows (T.view staged.old) (T.view staged.new) }

    // Whenever it stops, each image of the files gives what a folder that the command passes
    // through is to give.
    ensures images { (files.new ≡ files.old) ⊎ ((text : List ℕ)
        × IsInput words.now (source_of S.Source input.old input.new) text
        × StopsAmong store.old (D.view files.old) (D.view files.new)
        (uci_passes words.now (folder_of store.old) text)) }

    // With 0 nothing was written to the error output. A command that reads no input leaves it
    // alone.
    ensures silent { result.status ≡ 0 → err.new ≡ err.old }
    ensures unread { reads words.now ≡ false → input.new ≡ input.old }
{
    let Ok(asked) = read_words(alloc, words) else {
        return end_short(false, Cut::Memory, err);
    };
    let options = &asked.options;
    let Some(command) = &asked.command else {
        tell(options.quiet, USAGE, err);
        return UciEnd {
            status: 2,
            refusal: 0,
        };
    };
    match run(alloc, options, store, files, staged, input, command) {
        Ok(report) => end_with(options.quiet, &report, out, err),
        Err(cut) => end_short(options.quiet, cut, err),
    }
}

fn run<D: Disk, T: Disk, S: Source>(
    alloc: Global,
    options: &Options,
    store: &mut Store,
    files: &mut D,
    staged: &mut T,
    input: &mut S,
    command: &Command,
) -> Result<Report, Cut>
    requires { IsOpen store.old (D.view files.old) (T.view staged.old) }
    ensures runs { runs.Runs result options.now command.now
        (folder_of store.old) (folder_of store.new)
        (source_of S.Source input.old input.new) }
    ensures leaves { runs.Leaves result store.new
        (D.view files.old) (D.view files.new) (T.view staged.old) (T.view staged.new) }
    ensures images { CommandStops options.now command.now store.old
        (source_of S.Source input.old input.new) D.view files.old files.new }
    ensures unread { reads_input command.now ≡ false → input.new ≡ input.old }
{
    match read_text(alloc, command, input) {
        Ok(text) => run_on(
            alloc,
            options,
            store,
            files,
            staged,
            command,
            text.as_bytes(),
        ),
        Err(cut) => Err(cut),
    }
}

/// The input of the command, or nothing where it reads none.
fn read_text<S: Source>(alloc: Global, command: &Command, input: &mut S) -> Result<Text, Cut>
    ensures text { runs.ReadsText result (reads_input command.now)
        (source_of S.Source input.old input.new) }
    ensures unread { reads_input command.now ≡ false → input.new ≡ input.old }
{
    if !command.reads_input() {
        return Ok(Text::from_vec(Vec::new(alloc)));
    }
    match read_to_end(alloc, input, INPUT_LIMIT) {
        Ok(text) => Ok(Text::from_vec(text)),
        Err(InputError::ReadFailed) => Err(Cut::ReadFailed),
        Err(InputError::TooLong { .. }) => Err(Cut::TooLong),
        Err(InputError::Memory) => Err(Cut::Memory),
    }
}

fn run_on<D: Disk, T: Disk>(
    alloc: Global,
    options: &Options,
    store: &mut Store,
    files: &mut D,
    staged: &mut T,
    command: &Command,
    text: &[u8],
) -> Result<Report, Cut>
    requires open { IsOpen store.old (D.view files.old) (T.view staged.old) }
    requires within { length text.now ≤ MOST }
    ensures runs { runs.RunsOn result options.now command.now
        (folder_of store.old) (folder_of store.new) text.now }
    ensures leaves { runs.Leaves result store.new
        (D.view files.old) (D.view files.new) (T.view staged.old) (T.view staged.new) }
    ensures images { StaysOrStops store.old D.view files.old files.new
        (passes options.now (folder_of store.old) command.now text.now) }
{
    match carry(alloc, options, store, files, staged, command, text) {
        Ok(report) => Ok(report),
        Err(Stop::DiskFailed) => Err(Cut::DiskFailed),
        Err(_) => Err(Cut::Memory),
    }
}

/// Carries any command out, on the input that it read.
pub(crate) fn carry<D: Disk, T: Disk>(
    alloc: Global,
    options: &Options,
    store: &mut Store,
    files: &mut D,
    staged: &mut T,
    command: &Command,
    text: &[u8],
) -> Result<Report, Stop>
    requires open { IsOpen store.old (D.view files.old) (T.view staged.old) }
    requires within { length text.now ≤ MOST }
    ensures carries { Carries result
        (λ report. carried options.now (folder_of store.old) command.now text.now
        ≡ carried_as report (folder_of store.new)) (folder_of store.new)
        (passes options.now (folder_of store.old) command.now text.now) }
    ensures writes { Writes result store.old store.new
        (D.view files.old) (D.view files.new) (T.view staged.old) (T.view staged.new) }
    ensures images { StaysOrStops store.old D.view files.old files.new
        (passes options.now (folder_of store.old) command.now text.now) }
{
    match command {
        Command::Import { name } => change(
            alloc,
            import(alloc, options, store, files, staged, name.as_bytes(), text),
        ),
        Command::Batch => batch(alloc, options, store, files, staged, text),
        _ => carry_out(alloc, options, store, files, staged, command),
    }
}

fn batch<D: Disk, T: Disk>(
    alloc: Global,
    options: &Options,
    store: &mut Store,
    files: &mut D,
    staged: &mut T,
    input: &[u8],
) -> Result<Report, Stop>
    requires open { IsOpen store.old (D.view files.old) (T.view staged.old) }
    requires within { length input.now ≤ MOST }
    ensures carries { Carries result
        (λ report. batch_of options.now (folder_of store.old) (lines_in input.now)
        ≡ carried_as report (folder_of store.new)) (folder_of store.new)
        (batch_passes options.now (folder_of store.old) (lines_in input.now)) }
    ensures writes { Writes result store.old store.new
        (D.view files.old) (D.view files.new) (T.view staged.old) (T.view staged.new) }
    ensures images { StaysOrStops store.old D.view files.old files.new
        (batch_passes options.now (folder_of store.old) (lines_in input.now)) }
{
    match read_lines(alloc, input) {
        Ok(lines) => carry_lines(alloc, options, store, files, staged, lines.as_slice()),
        Err(error) => change(alloc, Err(stop_of_text(error))),
    }
}

/// Writes what a command prints and tells.
fn end_with<O: Sink, E: Sink>(quiet: bool, report: &Report, out: &mut O, err: &mut E) -> UciEnd
    ensures ends { runs.EndsWith quiet report.now (sink_of O.Sink out.old out.new)
        (sink_of E.Sink err.old err.new) result }
    ensures silent { result.status ≡ 0 → runs.told_unless quiet report.now.told ≡ []
        → err.new ≡ err.old }
{
    let Ok(()) = out.write(report.output.as_bytes()) else {
        return end_short(quiet, Cut::WriteFailed, err);
    };
    tell(quiet, report.told.as_bytes(), err);
    match report.refusal {
        Some(refusal) => UciEnd {
            status: 1,
            refusal: refusal.number(),
        },
        None => UciEnd {
            status: 0,
            refusal: 0,
        },
    }
}

fn end_short<E: Sink>(quiet: bool, cut: Cut, err: &mut E) -> UciEnd
    ensures end { result ≡ end_of (spec.cut_status cut) 0 }
    ensures told { IsTold (runs.told_unless quiet (spec.cut_text cut))
        (sink_of E.Sink err.old err.new) }
{
    tell(quiet, cut.text(), err);
    UciEnd {
        status: cut.status(),
        refusal: 0,
    }
}

/// Writes a text to the error output. Where that fails, nothing is done about it.
fn tell<E: Sink>(quiet: bool, text: &[u8], err: &mut E)
    ensures told { IsTold (runs.told_unless quiet text.now) (sink_of E.Sink err.old err.new) }
    ensures silent { runs.told_unless quiet text.now ≡ [] → err.new ≡ err.old }
{
    if quiet || text.is_empty() {
        return;
    }
    let _ = err.write(text);
}

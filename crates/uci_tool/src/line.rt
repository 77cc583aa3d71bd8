//! Commands that read no input, and the lines of `batch`.
ghost use Rattle.std.specs.Prelude.{◌≡◌, ◌++◌, OnOk};
ghost use Rattle.uci_store.specs.Store.{names_of, staged_in, IsStore};
ghost use Rattle.uci_tool.specs.Answers.{Carries, Prints, ReportsText, ReportsChange};
ghost use Rattle.uci_tool.specs.Answers.{ReportsEffect, Writes, IsOpen, HaveShapes, carried_as};
ghost use Rattle.uci_tool.specs.Commit.{commit_done};
ghost use Rattle.uci_tool.specs.Texts as texts;
ghost use Rattle.uci_tool.specs.Folder.{folder_of};
ghost use Rattle.uci_tool.specs.Line as spec;
ghost use Rattle.uci_tool.specs.Passes as passes;
ghost use Rattle.uci_tool.specs.Stops.{StaysOrStops};

use crate::Stop;
use crate::adding::{add, revert_word};
use crate::committing::{commit_each, commit_package};
use crate::report::Report;
use crate::staging::stage_word;
use crate::texts::{Listing, alone, get_word, list, list_each, show_word};
use plane_disk::Disk;
use plane_io::{Memory, Text};
use std::alloc::Global;
use uci_cli::{Command, Options, Refusal, read_command};
use uci_store::Store;
use uci_text::Line;

/// Carries a command out that reads no input; `import` and `batch` are refused.
pub fn carry_out<D: Disk, T: Disk>(
    alloc: Global,
    options: &Options,
    store: &mut Store,
    files: &mut D,
    staged: &mut T,
    command: &Command,
) -> Result<Report, Stop>
    requires { IsOpen store.old (D.view files.old) (T.view staged.old) }
    ensures carries { Carries result
        (λ report. spec.command_done options.now (folder_of store.old) command.now
        ≡ carried_as report (folder_of store.new)) (folder_of store.new)
        (passes.command_passes options.now (folder_of store.old) command.now) }
    ensures writes { Writes result store.old store.new
        (D.view files.old) (D.view files.new) (T.view staged.old) (T.view staged.new) }
    ensures images { StaysOrStops store.old D.view files.old files.new
        (passes.command_passes options.now (folder_of store.old) command.now) }
{
    match command {
        Command::Show { path } => show(alloc, options, store, path),
        Command::Get { path } => {
            print_one(alloc, get_word(alloc, options, store, path.as_bytes()))
        }
        Command::Stage { verb, word } => {
            change(
                alloc,
                stage_word(alloc, store, staged, *verb, word.as_bytes()),
            )
        }
        Command::Add { name, kind } => effect(alloc, add(alloc, store, staged, name, kind)),
        Command::Changes { name } => listed(alloc, Listing::Changes, options, store, name),
        Command::Revert { path } => {
            change(alloc, revert_word(alloc, store, staged, path.as_bytes()))
        }
        Command::Commit { name } => commit(alloc, store, files, staged, name),
        Command::Export { name } => listed(alloc, Listing::Export, options, store, name),
        Command::Import { .. } | Command::Batch => { Ok(Report::refused(alloc, Refusal::Invalid)?) }
    }
}

fn show(
    alloc: Global,
    options: &Options,
    store: &Store,
    path: &Option<Text>,
) -> Result<Report, Stop>
    requires store { IsStore store.now }
    requires shapes { HaveShapes (staged_in store.now) }
    ensures { Prints result (texts.show_done options.now (folder_of store.now) path.now) }
{
    match path {
        Some(word) => print_one(alloc, show_word(alloc, options, store, word.as_bytes())),
        None => print_each(alloc, Listing::Show, options, store),
    }
}

fn listed(
    alloc: Global,
    listing: Listing,
    options: &Options,
    store: &Store,
    name: &Option<Text>,
) -> Result<Report, Stop>
    requires store { IsStore store.now }
    requires shapes { HaveShapes (staged_in store.now) }
    ensures { Prints result (texts.of_named
        (texts.listed listing options.now (folder_of store.now)) (names_of store.now) name.now) }
{
    match name {
        Some(name) => print_one(alloc, list(alloc, listing, options, store, name.as_bytes())),
        None => print_each(alloc, listing, options, store),
    }
}

fn print_each(
    alloc: Global,
    listing: Listing,
    options: &Options,
    store: &Store,
) -> Result<Report, Stop>
    requires store { IsStore store.now }
    requires shapes { HaveShapes (staged_in store.now) }
    ensures { Prints result (texts.each
        (texts.listed listing options.now (folder_of store.now)) (names_of store.now)) }
{
    let printed = list_each(alloc, listing, options, store)?;
    Ok(Report::of_printed(alloc, printed)?)
}

fn print_one(alloc: Global, text: Result<Text, Stop>) -> Result<Report, Stop>
    ensures { ReportsText text result }
{
    let printed = alone(alloc, text)?;
    Ok(Report::of_printed(alloc, printed)?)
}

/// The report of a command that changes a folder as a whole or not at all.
pub fn change(alloc: Global, changed: Result<(), Stop>) -> Result<Report, Stop>
    ensures { ReportsChange changed result }
{
    match changed {
        Ok(()) => Ok(Report::done(alloc, Text::from_vec(Vec::new(alloc)))),
        Err(Stop::Refused(refusal)) => Ok(Report::refused(alloc, refusal)?),
        Err(stop) => Err(stop),
    }
}

fn effect(alloc: Global, effect: Result<Text, Stop>) -> Result<Report, Stop>
    ensures { ReportsEffect effect result }
{
    match effect {
        Ok(output) => Ok(Report::done(alloc, output)),
        Err(Stop::Refused(refusal)) => Ok(Report::refused(alloc, refusal)?),
        Err(stop) => Err(stop),
    }
}

fn commit<D: Disk, T: Disk>(
    alloc: Global,
    store: &mut Store,
    files: &mut D,
    staged: &mut T,
    name: &Option<Text>,
) -> Result<Report, Stop>
    requires { IsOpen store.old (D.view files.old) (T.view staged.old) }
    ensures carries { Carries result
        (λ report. spec.of_changed (commit_done (folder_of store.old) name.now)
        ≡ carried_as report (folder_of store.new)) (folder_of store.new)
        (passes.of_commit (folder_of store.old) name.now) }
    ensures writes { Writes result store.old store.new
        (D.view files.old) (D.view files.new) (T.view staged.old) (T.view staged.new) }
    ensures images { StaysOrStops store.old D.view files.old files.new
        (passes.of_commit (folder_of store.old) name.now) }
{
    match name {
        Some(name) => {
            change(
                alloc,
                commit_package(alloc, store, files, staged, name.as_bytes()),
            )
        }
        None => {
            let refusal = match commit_each(alloc, store, files, staged) {
                Ok(refusal) => refusal,
                Err(stop) => return Err(stop),
            };
            let Ok(report) = Report::of_changed(alloc, refusal) else {
                return Err(Stop::Memory);
            };
            Ok(report)
        }
    }
}

/// Carries the lines of a `batch` out, one after another, also behind one that is refused.
pub fn carry_lines<D: Disk, T: Disk>(
    alloc: Global,
    options: &Options,
    store: &mut Store,
    files: &mut D,
    staged: &mut T,
    lines: &[Line],
) -> Result<Report, Stop>
    requires { IsOpen store.old (D.view files.old) (T.view staged.old) }
    ensures carries { Carries result
        (λ report. spec.lines_done options.now (folder_of store.old) lines.now
        ≡ carried_as report (folder_of store.new)) (folder_of store.new)
        (passes.lines_passes options.now (folder_of store.old) lines.now) }
    ensures writes { Writes result store.old store.new
        (D.view files.old) (D.view files.new) (T.view staged.old) (T.view staged.new) }
    ensures images { StaysOrStops store.old D.view files.old files.new
        (passes.lines_passes options.now (folder_of store.old) lines.now) }
{
    let mut output = Vec::new(alloc);
    let mut told = Vec::new(alloc);
    let mut refusal = None;
    for line in lines {
        let report = match carry_line(alloc, options, store, files, staged, line) {
            Ok(report) => report,
            Err(stop) => return Err(stop),
        };
        let Ok(()) = gather(&mut output, &mut told, &report) else {
            return Err(Stop::Memory);
        };
        refusal = first_of(refusal, report.refusal);
    }
    Ok(Report {
        output: Text::from_vec(output),
        told: Text::from_vec(told),
        refusal,
    })
}

/// Puts what a line printed and told behind that of the lines before it.
fn gather(output: &mut Vec<u8>, told: &mut Vec<u8>, report: &Report) -> Result<(), Memory>
    ensures output { OnOk result (output.new.items ≡ output.old.items ++ report.now.output) }
    ensures told { OnOk result (told.new.items ≡ told.old.items ++ report.now.told) }
{
    output.extend_from_slice(report.output.as_bytes())?;
    told.extend_from_slice(report.told.as_bytes())?;
    Ok(())
}

fn first_of(first: Option<Refusal>, other: Option<Refusal>) -> Option<Refusal>
    ensures { result ≡ spec.first_refusal first other }
{
    match first {
        Some(refusal) => Some(refusal),
        None => other,
    }
}

fn carry_line<D: Disk, T: Disk>(
    alloc: Global,
    options: &Options,
    store: &mut Store,
    files: &mut D,
    staged: &mut T,
    line: &Line,
) -> Result<Report, Stop>
    requires { IsOpen store.old (D.view files.old) (T.view staged.old) }
    ensures carries { Carries result
        (λ report. spec.line_done options.now (folder_of store.old) line.now.words
        ≡ carried_as report (folder_of store.new)) (folder_of store.new)
        (passes.line_passes options.now (folder_of store.old) line.now.words) }
    ensures writes { Writes result store.old store.new
        (D.view files.old) (D.view files.new) (T.view staged.old) (T.view staged.new) }
    ensures images { StaysOrStops store.old D.view files.old files.new
        (passes.line_passes options.now (folder_of store.old) line.now.words) }
{
    match read_command(line.words.as_slice()) {
        Ok(Some(command)) => carry_out(alloc, options, store, files, staged, &command),
        Ok(None) => Ok(Report::refused(alloc, Refusal::Invalid)?),
        Err(_) => Err(Stop::Memory),
    }
}

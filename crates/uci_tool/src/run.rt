ghost use Rattle.std.specs.Prelude.{ℕ, ◌≡◌, ◌⊎◌, [], true, false, IfOk, if◌then◌else◌};
ghost use Rattle.plane_outside.specs.Given.{Advances};
ghost use Rattle.snap_disk.specs.Images.{SameDisk};
ghost use Rattle.uci_staged.specs.Kept.{Follows};
ghost use Rattle.uci_cli.specs.Words.{asked_of};
ghost use Rattle.uci_tool.specs.Ends.{reads, sink_of, streams_of, IsTold};
ghost use Rattle.uci_tool.specs.Asking.{asks};
ghost use Rattle.uci_tool.specs.Run.{RunEnds};
ghost use Rattle.uci_tool.specs.Comes.{RunComes};

use crate::shut::shut_of;
use crate::uci;
use plane_disk::Disk;
use plane_io::{Memory, Sink, Source, Text};
use plane_outside::Clock;
use std::alloc::Global;
use uci_cli::{OUT_OF_MEMORY, USAGE, read_words};
use uci_store::Store;

/// What is to be known of the words before a folder is opened.
#[derive(Clone, Copy)]
struct Asking {
    /// Whether nothing is to be written to the error output.
    quiet: bool,
    /// Whether the words ask for a command.
    is_command: bool,
}

/// Carries one command of `uci` out over a folder of packages and one of staged changes, which is
/// opened at the clock's moment. The words are without `uci` itself. It answers the exit status: 0,
/// 1 refused, 2 usage, 3 the input failed, 4 the output failed, 5 a disk failed, 8 want of memory,
/// 10 a file or the input is too long, 12 what an apply left has no reading.
pub fn run_uci<D: Disk, T: Disk, S: Source, O: Sink, E: Sink, C: Clock>(
    alloc: Global,
    words: &[Text],
    input: &mut S,
    out: &mut O,
    err: &mut E,
    files: &mut D,
    staged: &mut T,
    clock: &mut C,
) -> u8
    requires same_packages { (T.view staged.old).names ≡ (D.view files.old).names }

    // How the run ends, what it leaves, and what a stop leaves at any moment; and when it ends so.
    ensures ended { RunEnds words.now (C.moments clock.old)
        (streams_of S.Source input.old input.new O.Sink out.old out.new E.Sink err.old err.new)
        (D.view files.old) (D.view files.new) (T.view staged.old) (T.view staged.new) result }
    ensures comes { RunComes words.now (C.moments clock.old)
        (streams_of S.Source input.old input.new O.Sink out.old out.new E.Sink err.old err.new)
        (D.view files.old) (D.view files.new) (T.view staged.old) (T.view staged.new) result }

    // The same disks.
    ensures same { SameDisk (D.view files.old) (D.view files.new) }
    ensures follows { Follows (T.view staged.old) (T.view staged.new) }

    // With 0 nothing was written to the error output, and a command that reads no input leaves it
    // alone.
    ensures silent { result ≡ 0 → err.new ≡ err.old }
    ensures unread { reads words.now ≡ false → input.new ≡ input.old }

    // The clock is asked once, or not at all.
    ensures once { (clock.new ≡ clock.old) ⊎ ((now : ℕ)
        × Advances (C.moments clock.old) (C.moments clock.new) now) }

    // Words that request for no command leave all but the error output alone.
    ensures unasked { asks words.now ≡ false → (input.new ≡ input.old)
        × (out.new ≡ out.old) × (files.new ≡ files.old) × (staged.new ≡ staged.old)
        × (clock.new ≡ clock.old) }
{
    let Ok(asking) = look_at(alloc, words) else {
        tell(false, OUT_OF_MEMORY, err);
        return 8;
    };
    if !asking.is_command {
        tell(asking.quiet, USAGE, err);
        return 2;
    }
    let quiet = asking.quiet;
    run_over(alloc, words, quiet, input, out, err, files, staged, clock)
}

/// Opens the folder and carries the command out.
fn run_over<D: Disk, T: Disk, S: Source, O: Sink, E: Sink, C: Clock>(
    alloc: Global,
    words: &[Text],
    quiet: bool,
    input: &mut S,
    out: &mut O,
    err: &mut E,
    files: &mut D,
    staged: &mut T,
    clock: &mut C,
) -> u8
    requires same_packages { (T.view staged.old).names ≡ (D.view files.old).names }
    requires quiet { quiet ≡ (asked_of words.now).options.quiet }
    requires some { asks words.now ≡ true }
    ensures ended { RunEnds words.now (C.moments clock.old)
        (streams_of S.Source input.old input.new O.Sink out.old out.new E.Sink err.old err.new)
        (D.view files.old) (D.view files.new) (T.view staged.old) (T.view staged.new) result }
    ensures same { SameDisk (D.view files.old) (D.view files.new) }
    ensures follows { Follows (T.view staged.old) (T.view staged.new) }
    ensures silent { result ≡ 0 → err.new ≡ err.old }
    ensures unread { reads words.now ≡ false → input.new ≡ input.old }
    ensures once { (now : ℕ) × Advances (C.moments clock.old) (C.moments clock.new) now }
{
    let now = clock.now();
    match Store::open(alloc, files, staged, now) {
        Ok(mut store) => uci(alloc, words, &mut store, files, staged, input, out, err).status,
        Err(error) => {
            let shut = shut_of(error);
            tell(quiet, shut.text(), err);
            shut.status()
        }
    }
}

/// Looks whether the words ask for a command, and whether for silence.
fn look_at(alloc: Global, words: &[Text]) -> Result<Asking, Memory>
    ensures { IfOk result (λ asking. asking ≡ record {
      quiet = (asked_of words.now).options.quiet;
      is_command = asks words.now;
    }) }
{
    let asked = read_words(alloc, words)?;
    let quiet = asked.options.quiet;
    let is_command = asked.command.is_some();
    Ok(Asking { quiet, is_command })
}

/// Writes a text to the error output, unless the words ask for silence. Where that fails, nothing
/// is done about it.
fn tell<E: Sink>(quiet: bool, text: &[u8], err: &mut E)
    ensures { IsTold (if quiet then [] else text.now) (sink_of E.Sink err.old err.new) }
{
    if !quiet {
        let _ = err.write(text);
    }
}

ghost use Rattle.std.specs.Prelude.{◌≡◌, map, string_bytes};
ghost use Rattle.net_settle.specs.Outside.{outside_of};
ghost use Rattle.net_start.specs.BringUp.{IsBare};
ghost use Rattle.uci_tool.specs.Ends.{source_of};
ghost use Rattle.plane_run.specs.Script.{StaysUnlessCalled};
ghost use Rattle.plane_main.specs.Outside.{input_of, errors_of};
ghost use Rattle.plane_main.specs.Command.{AskForNone, MakesSessions};
ghost use Rattle.plane_main.specs.Ending.{status_of, text_of, IsTold};
ghost use Rattle.plane_main.specs.Run.{Ended, LeftAlone};

use crate::carry_out::carry_out;
use crate::ending::Ending;
use crate::report::report;
use kern_model::Kernel;
use plane_disk::Disk;
use plane_io::{Sink, Source};
use plane_outside::{Clock, Hub, Random};
use std::alloc::Global;

/// The program: carries a command out over the devices that it is given, and answers its exit
/// status.
///
/// `start DEV..` reads a `network` text from the input, and brings its interfaces up on the devices
/// of those names. `uci WORDS` carries OpenWrt's `uci` out over the packages of `files`, with the
/// command line's changes in `staged`, at the moment of `clock`. `run -c DIR` carries the script of
/// the input out over the packages of `files`, on a kernel that begins without devices. Its
/// sessions are made with the words of `random`. `gen N` plays a network of N bridges through:
/// their device comes, goes and comes, and the interfaces become fewer. `--help` and `--version`
/// print a page about the program. The words are without the name of the program. A device that the
/// kernel does not take is absent. Status 8 is want of memory: then a `start` put no object and
/// wrote nothing to the output, but may have added devices; of a `uci` that takes several steps the
/// first ones may be done, of a `run` the lines before the one that it came in, and of a `gen` the
/// steps before, and that one in part.
pub fn plane<S: Source, O: Sink, E: Sink, D: Disk, T: Disk, K: Kernel, H: Hub, C: Clock, R: Random>(
    alloc: Global,
    words: &[String],
    input: &mut S,
    out: &mut O,
    err: &mut E,
    files: &mut D,
    staged: &mut T,
    kernel: &mut K,
    hub: &mut H,
    clock: &mut C,
    random: &mut R,
) -> u8
    requires bare { IsBare K.Kernel kernel.old }
    requires same_packages { (T.view staged.old).names ≡ (D.view files.old).names }

    // How the run ends: its status, why it ends so, what it leaves, when it does, and its text on
    // the error output.
    ensures ended { Ended (map string_bytes words.now) (record {
      input = input_of S.Source input.old input.new;
      before = outside_of O.Sink K.Kernel out.old kernel.old;
      after = outside_of O.Sink K.Kernel out.new kernel.new;
      errors = errors_of E.Sink err.old err.new;
      folders = record {
        files = D.view files.old;
        files_now = D.view files.new;
        staged = T.view staged.old;
        staged_now = T.view staged.new;
        moments = C.moments clock.old;
      };
      random = R.words random.old;
    }) ((input.new ≡ input.old) × (files.new ≡ files.old)
        × (staged.new ≡ staged.old) × (clock.new ≡ clock.old)) result }

    // The devices that it has no business with are as they were.
    ensures alone { LeftAlone (map string_bytes words.now) result
        (record {
          input = input.old;
          out = out.old;
          kernel = kernel.old;
          files = files.old;
          staged = staged.old;
          clock = clock.old;
        })
        (record {
          input = input.new;
          out = out.new;
          kernel = kernel.new;
          files = files.new;
          staged = staged.new;
          clock = clock.new;
        }) }
    ensures unused { (hub.new ≡ hub.old)
        × (AskForNone MakesSessions (map string_bytes words.now) → random.new ≡ random.old) }

    // The random words stay, unless a script was read and a caller asks a line of it.
    ensures uncalled { StaysUnlessCalled (source_of S.Source input.old input.new)
        (random.new ≡ random.old) }

    // With 0 nothing was written to the error output.
    ensures silent { result ≡ 0 → err.new ≡ err.old }
{
    carry_out(
        alloc, words, input, out, err, files, staged, kernel, clock, random,
    )
    .status()
}

/// Ends a run before it began, for want of memory to read the words or to make the devices: tells
/// so, and answers the status of that.
pub fn lack_memory<E: Sink>(err: &mut E) -> u8
    ensures status { result ≡ status_of Ending.OutOfMemory }
    ensures told { IsTold (text_of Ending.OutOfMemory) (errors_of E.Sink err.old err.new) }
{
    report(Ending::OutOfMemory, err).status()
}

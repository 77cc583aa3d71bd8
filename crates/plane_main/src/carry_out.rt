ghost use Rattle.std.specs.Prelude.{◌≡◌, map, string_bytes};
ghost use Rattle.net_settle.specs.Outside.{outside_of};
ghost use Rattle.net_start.specs.BringUp.{IsBare};
ghost use Rattle.uci_tool.specs.Ends.{source_of};
ghost use Rattle.plane_run.specs.Script.{StaysUnlessCalled};
ghost use Rattle.plane_main.specs.Outside.{input_of, errors_of};
ghost use Rattle.plane_main.specs.Command.{AskForNone, MakesSessions};
ghost use Rattle.plane_main.specs.Ending.{status_of, text_of, IsTold, IsOfUci};
ghost use Rattle.plane_main.specs.Run.{Ends, LeavesAlone};

use crate::command::{Command, read_command};
use crate::ending::Ending;
use crate::generated::play;
use crate::page::show;
use crate::report::report;
use crate::script::read_acl;
use crate::start::start;
use kern_model::Kernel;
use plane_disk::Disk;
use plane_io::{Sink, Source};
use plane_outside::{Clock, Random};
use plane_run::run_script;
use std::alloc::Global;
use uci_tool::run_uci;

/// Carries the command out that the words ask for, and tells how it ended.
pub fn carry_out<S: Source, O: Sink, E: Sink, D: Disk, T: Disk, K: Kernel, C: Clock, R: Random>(
    alloc: Global,
    words: &[String],
    input: &mut S,
    out: &mut O,
    err: &mut E,
    files: &mut D,
    staged: &mut T,
    kernel: &mut K,
    clock: &mut C,
    random: &mut R,
) -> Ending
    requires bare { IsBare K.Kernel kernel.old }
    requires same_packages { (T.view staged.old).names ≡ (D.view files.old).names }
    ensures cause { Ends (map string_bytes words.now) (record {
      input = input_of S.Source input.old input.new;
      before = outside_of O.Sink K.Kernel out.old kernel.old;
      after = outside_of O.Sink K.Kernel out.new kernel.new;
      errors = errors_of E.Sink err.old err.new;
      folders = record {
        files = D.view files.old;
        files_now = D.view files.new;
        staged = T.view staged.old;
        staged_now = T.view staged.new;
        moments = C.moments clock.old;
      };
      random = R.words random.old;
    }) ((input.new ≡ input.old) × (files.new ≡ files.old)
        × (staged.new ≡ staged.old) × (clock.new ≡ clock.old)) result }
    ensures told { (IsOfUci result → ⊥)
        → IsTold (text_of result) (errors_of E.Sink err.old err.new) }
    ensures silent { status_of result ≡ 0 → err.new ≡ err.old }
    ensures alone { LeavesAlone (map string_bytes words.now) result
        (record {
          input = input.old;
          out = out.old;
          kernel = kernel.old;
          files = files.old;
          staged = staged.old;
          clock = clock.old;
        })
        (record {
          input = input.new;
          out = out.new;
          kernel = kernel.new;
          files = files.new;
          staged = staged.new;
          clock = clock.new;
        }) }
    ensures random { AskForNone MakesSessions (map string_bytes words.now) →
        random.new ≡ random.old }
    ensures uncalled { StaysUnlessCalled (source_of S.Source input.old input.new)
        (random.new ≡ random.old) }
{
    let command = match read_command(alloc, words) {
        Ok(Some(command)) => command,
        Ok(None) => return report(Ending::Usage, err),
        Err(_) => return report(Ending::OutOfMemory, err),
    };
    match command {
        Command::Start { devices } => {
            let ending = start(alloc, devices.as_slice(), input, out, kernel);
            report(ending, err)
        }
        Command::Uci { words } => {
            let words = words.as_slice();
            let status = run_uci(alloc, words, input, out, err, files, staged, clock);
            Ending::OfUci { status }
        }
        Command::Run { asked } => {
            let acl = match read_acl(alloc, asked.acl.as_bytes()) {
                Ok(acl) => acl,
                Err(ending) => return report(ending, err),
            };
            let end = run_script(
                alloc,
                asked.moment,
                acl,
                input,
                out,
                files,
                staged,
                kernel,
                random,
            );
            report(Ending::OfRun { end }, err)
        }
        Command::Gen { count } => report(play(alloc, count, out, kernel), err),
        Command::Show(page) => report(show(page, out), err),
    }
}

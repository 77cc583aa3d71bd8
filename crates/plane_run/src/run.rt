//! The whole run.
ghost use Rattle.std.specs.Prelude.{◌≡◌};
ghost use Rattle.net_settle.specs.Outside.{outside_of};
ghost use Rattle.net_start.specs.BringUp.{IsBare};
ghost use Rattle.uci_tool.specs.Answers.{IsOpen};
ghost use Rattle.uci_tool.specs.Ends.{source_of};
ghost use Rattle.rpc_objects.specs.Passed.{StaysOrStopsIn};
ghost use Rattle.plane_step.specs.ScriptPasses.{ScriptPasses};
ghost use Rattle.plane_step.specs.Kept.{faults_of};
ghost use Rattle.plane_run.specs.Script.{StaysUnlessCalled};
ghost use Rattle.plane_run.specs.Run.{RunEnds};
ghost use Rattle.plane_run.specs.Parts as spec;
ghost use Rattle.plane_run.specs.Parts.{RunsOver, KeepsDisks};
ghost use Rattle.plane_run.specs.Stops.{RunStops, StoreStops};

use crate::lines::carry_script;
use crate::opening::open_net;
use crate::rows::load_rows;
use crate::run_end::RunEnd;
use bus_lines::Callers;
use kern_model::Kernel;
use net_plane::Net;
use plane_disk::Disk;
use plane_io::{Sink, Source};
use plane_outside::Random;
use snap_disk::SnapError;
use std::alloc::Global;
use ubus_acl::Acl;
use uci_store::{Store, StoreError};

/// Opens a folder of packages and one of staged changes at this moment, in seconds, settles its
/// network on a kernel that has no devices, and carries the script of the input out, each line
/// settled and answered on the output. Its bus has this access list, and its sessions are made with
/// the words of the random source.
pub fn run_script<S: Source, O: Sink, D: Disk, T: Disk, K: Kernel, R: Random>(
    alloc: Global,
    now: u64,
    acl: Acl,
    input: &mut S,
    out: &mut O,
    files: &mut D,
    staged: &mut T,
    kernel: &mut K,
    random: &mut R,
) -> RunEnd
    requires bare { IsBare K.Kernel kernel.old }
    requires same_packages { (T.view staged.old).names ≡ (D.view files.old).names }

    // How the run ends, and what it leaves.
    ensures ended { RunEnds (record {
      first = record {
        now = now;
        acl = acl;
        words = R.words random.old;
        files = D.view files.old;
        staged = T.view staged.old;
        before = outside_of O.Sink K.Kernel out.old kernel.old;
      };
      input = source_of S.Source input.old input.new;
      files_now = D.view files.new;
      staged_now = T.view staged.new;
      after = outside_of O.Sink K.Kernel out.new kernel.new;
    }) result }

    // Whenever it stops, each image of the files opens as it was found, or as a folder that the
    // script passes through.
    ensures stops { RunStops
        (record {
          now = now;
          acl = acl;
          words = R.words random.old;
          files = D.view files.old;
          staged = T.view staged.old;
          before = outside_of O.Sink K.Kernel out.old kernel.old;
        })
        (source_of S.Source input.old input.new) (D.view files.new) }

    // The same disks.
    ensures disks { KeepsDisks (D.view files.old) (D.view files.new)
        (T.view staged.old) (T.view staged.new) }

    // The random words stay, unless the script was read and a caller asks a line of it.
    ensures random { StaysUnlessCalled (source_of S.Source input.old input.new)
        (random.new ≡ random.old) }
{
    match Store::open(alloc, files, staged, now) {
        Ok(mut store) => run_over(
            alloc, now, acl, &mut store, input, out, files, staged, kernel, random,
        ),
        Err(error) => shut_of(error),
    }
}

// Opens the plane over the store, and carries the script out. Who calls methods is made before
// anything is written.
fn run_over<S: Source, O: Sink, D: Disk, T: Disk, K: Kernel, R: Random>(
    alloc: Global,
    now: u64,
    acl: Acl,
    store: &mut Store,
    input: &mut S,
    out: &mut O,
    files: &mut D,
    staged: &mut T,
    kernel: &mut K,
    random: &mut R,
) -> RunEnd
    requires bare { IsBare K.Kernel kernel.old }
    requires open { IsOpen store.old (D.view files.old) (T.view staged.old) }
    ensures runs { RunsOver (record {
      now = now;
      acl = acl;
      words = R.words random.old;
      store = store.old;
      input = source_of S.Source input.old input.new;
      disks = faults_of (D.view files.old) (D.view files.new)
          (T.view staged.old) (T.view staged.new);
      stays = files.new ≡ files.old;
      images = λ start lines. StaysOrStopsIn store.old D.view files.old files.new
          (ScriptPasses start (R.words random.old) lines);
      files_now = D.view files.new;
      staged_now = T.view staged.new;
      before = outside_of O.Sink K.Kernel out.old kernel.old;
      after = outside_of O.Sink K.Kernel out.new kernel.new;
    }) result }
    ensures disks { KeepsDisks (D.view files.old) (D.view files.new)
        (T.view staged.old) (T.view staged.new) }
    ensures images { StoreStops now acl (R.words random.old) store.old
        (source_of S.Source input.old input.new) D.view files.old files.new }
    ensures random { StaysUnlessCalled (source_of S.Source input.old input.new)
        (random.new ≡ random.old) }
{
    let (network, wireless) = match load_rows(alloc, store) {
        Ok(rows) => rows,
        Err(end) => return end,
    };
    let Ok(mut callers) = Callers::new(alloc, acl) else {
        return RunEnd::OutOfMemory;
    };
    let mut net = Net::new(alloc);
    match open_net(alloc, &mut net, &network, &wireless, kernel, out) {
        Ok(()) => carry_script(
            alloc,
            now,
            &mut callers,
            store,
            &mut net,
            input,
            out,
            files,
            staged,
            kernel,
            random,
        ),
        Err(end) => end,
    }
}

// Why the store refused to open.
fn shut_of(error: StoreError) -> RunEnd
    ensures { result ≡ spec.shut_of error }
{
    match error {
        StoreError::Snap(SnapError::BadSnapshot { byte }) => RunEnd::BadSnapshot { byte },
        StoreError::Snap(SnapError::Limit { number }) => RunEnd::TooLong { limit: number },
        StoreError::Snap(SnapError::Memory) | StoreError::Memory => RunEnd::OutOfMemory,
        _ => RunEnd::DiskFailed,
    }
}

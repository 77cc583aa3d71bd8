ghost use Rattle.std.specs.Prelude.{ℕ, ◌≡◌, [], Some};
ghost use Rattle.net_plane.specs.Network.{IsOf};
ghost use Rattle.step_net.specs.Taken.{telled_of};
ghost use Rattle.uci_store.specs.Store.{IsStore};
ghost use Rattle.uci_tool.specs.Answers.{IsOpen};
ghost use Rattle.uci_tool.specs.Folder.{folder_of};
ghost use Rattle.uci_tool.specs.Stops.{StaysOrStops};
ghost use Rattle.plane_step.specs.FilesMoved.{files_moved};
ghost use Rattle.plane_step.specs.Faults.{faults_of};
ghost use Rattle.plane_step.specs.StoreKept.{StaysOn};
ghost use Rattle.plane_step.specs.LineDone as spec;
ghost use Rattle.plane_step.specs.LineDone.{Does, NetDoes, IsOfNet};

use crate::answer::{answer_interface, answer_radio, refuse_line};
use crate::commands::carry_uci;
use crate::stop::Stop;
use crate::time::go_to;
use kern_model::Kernel;
use net_plane::Net;
use plane_disk::Disk;
use plane_io::Memory;
use script_lines::ScriptLine;
use std::alloc::Global;
use step_net::{
    Told, reload, show_device, show_dump, show_interface, show_radio, take_device, take_operator,
    tell,
};
use uci_store::Store;

/// Acts on what a line asks for, which stands at this number in the script. The calls of its
/// settling are not made.
///
/// # Errors
///
/// `DiskFailed` only where a disk failed, and `Memory`.
pub fn act_on<K: Kernel, D: Disk, T: Disk>(
    alloc: Global,
    moment: &mut u64,
    store: &mut Store,
    files: &mut D,
    staged: &mut T,
    net: &mut Net,
    number: u32,
    line: Option<ScriptLine>,
    kernel: &mut K,
) -> Result<Told, Stop>
    requires open { IsOpen store.old (D.view files.old) (T.view staged.old) }
    requires told { net.old.notices ≡ [] }
    requires of { IsOf K.Kernel kernel.old net.old }
    ensures does { Does
        (record {
          front = record { now = moment.old; store = store.old; net = net.old };
          number = number;
          line = line;
        })
        (record {
          now = moment.new;
          store = store.new;
          net = net.new;
          kernel = telled_of K.Kernel kernel.old kernel.new;
        })
        (faults_of (D.view files.old) (D.view files.new) (T.view staged.old) (T.view staged.new))
        result }
    ensures disks { StaysOn result store.old store.new
        (D.view files.old) (D.view files.new) (T.view staged.old) (T.view staged.new) }
    ensures images { StaysOrStops store.old D.view files.old files.new
        (files_moved moment.old (folder_of store.old) line).passes }
    ensures of { IsOf K.Kernel kernel.new net.new }
    ensures calls { K.calls kernel.new ≡ K.calls kernel.old }
{
    let Some(line) = line else {
        return or_memory(refuse_line(alloc, number));
    };
    match line {
        ScriptLine::At { moment: next } => go_to(alloc, moment, store, files, net, next),
        ScriptLine::Uci { words } => {
            carry_uci(alloc, store, files, staged, number, words.as_slice())
        }
        other => or_memory(act_on_net(alloc, store, net, number, other, kernel)),
    }
}

// Acts on a line that leaves the moment and the files.
fn act_on_net<K: Kernel>(
    alloc: Global,
    store: &Store,
    net: &mut Net,
    number: u32,
    line: ScriptLine,
    kernel: &mut K,
) -> Result<Told, Memory>
    requires store { IsStore store.now }
    requires told { net.old.notices ≡ [] }
    requires of { IsOf K.Kernel kernel.old net.old }
    ensures does { IsOfNet line → (now : ℕ) → NetDoes
        (record {
          front = record { now = now; store = store.now; net = net.old };
          number = number;
          line = Some line;
        })
        net.new (telled_of K.Kernel kernel.old kernel.new) result }
    ensures of { IsOf K.Kernel kernel.new net.new }
    ensures calls { K.calls kernel.new ≡ K.calls kernel.old }
{
    match line {
        ScriptLine::Device(event) => tell(alloc, take_device(alloc, net, kernel, &event)),
        ScriptLine::Answer {
            interface,
            number: request,
            json,
        } => answer_interface(alloc, net, number, interface, request, &json),
        ScriptLine::Radio {
            radio,
            number: request,
            json,
        } => answer_radio(alloc, net, number, radio, request, &json),
        ScriptLine::Operator { interface, up } => {
            tell(alloc, take_operator(alloc, net, interface, up))
        }
        ScriptLine::Reload => tell(alloc, reload(alloc, store, net)),
        ScriptLine::Dump => show_dump(alloc, net),
        ScriptLine::InterfaceStatus { name } => show_interface(alloc, net, &name),
        ScriptLine::DeviceStatus { name } => show_device(alloc, net, &name),
        ScriptLine::RadioStatus { name } => show_radio(alloc, net, &name),
        ScriptLine::At { .. }
        | ScriptLine::Uci { .. }
        | ScriptLine::Call { .. }
        | ScriptLine::OpenClient { .. }
        | ScriptLine::ClientBytes { .. }
        | ScriptLine::CloseClient { .. } => refuse_line(alloc, number),
    }
}

// Want of memory stops the script.
fn or_memory(told: Result<Told, Memory>) -> Result<Told, Stop>
    ensures { result ≡ spec.or_memory told }
{
    match told {
        Ok(told) => Ok(told),
        Err(_) => Err(Stop::Memory),
    }
}

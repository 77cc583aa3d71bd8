ghost use Rattle.std.specs.Prelude.{◌≡◌, []};
ghost use Rattle.uci_store.specs.Store.{IsStore};
ghost use Rattle.uci_tool.specs.Folder.{folder_of};
ghost use Rattle.net_plane.specs.Network.{IsOf};
ghost use Rattle.step_net.specs.Taken.{telled_of};
ghost use Rattle.rpc_network.specs.NetCalls.{Answers, Carries};

use crate::net_answer::answer_event;
use crate::{
    NetAnswer, NetCall, NetCallError, NetObject, answer_device_status, answer_dump,
    answer_interface_status, answer_radio_status, read_call, refuse,
};
use blob_codec::Attr;
use kern_model::Kernel;
use net_plane::Net;
use plane_io::Memory;
use script_lines::CallStatus;
use std::alloc::Global;
use step_net::{reload, take_answer, take_device, take_operator, take_radio};
use uci_store::Store;

/// Carries a call of a method of this object out. A method that the object does not have has status
/// 3, and an argument that is missing or of another form status 2.
///
/// # Errors
///
/// Want of memory, before anything is done or for what is to be answered.
pub fn call_network<K: Kernel>(
    alloc: Global,
    store: &Store,
    net: &mut Net,
    kernel: &mut K,
    object: NetObject,
    method: &[u8],
    args: &[Attr],
) -> Result<NetAnswer, Memory>
    requires store { IsStore store.now }
    requires told { net.old.notices ≡ [] }
    requires of { IsOf K.Kernel kernel.old net.old }
    ensures answers { Answers (folder_of store.now) object method.now args.now net.old net.new
        (telled_of K.Kernel kernel.old kernel.new) result }
    ensures of { IsOf K.Kernel kernel.new net.new }
    ensures calls { K.calls kernel.new ≡ K.calls kernel.old }
{
    match read_call(alloc, object, method, args) {
        Ok(call) => carry_out(alloc, store, net, kernel, call),
        Err(NetCallError::NoMethod) => Ok(refuse(alloc, CallStatus::MethodNotFound)),
        Err(NetCallError::Argument) => Ok(refuse(alloc, CallStatus::InvalidArgument)),
        Err(NetCallError::Memory) => Err(Memory),
    }
}

/// Does what a call asks for.
fn carry_out<K: Kernel>(
    alloc: Global,
    store: &Store,
    net: &mut Net,
    kernel: &mut K,
    call: NetCall,
) -> Result<NetAnswer, Memory>
    requires store { IsStore store.now }
    requires told { net.old.notices ≡ [] }
    requires of { IsOf K.Kernel kernel.old net.old }
    ensures carries { Carries (folder_of store.now) call net.old net.new
        (telled_of K.Kernel kernel.old kernel.new) result }
    ensures of { IsOf K.Kernel kernel.new net.new }
    ensures calls { K.calls kernel.new ≡ K.calls kernel.old }
{
    match call {
        NetCall::Reload => answer_event(alloc, reload(alloc, store, net)),
        NetCall::Dump => answer_dump(alloc, net),
        NetCall::InterfaceStatus { name } => answer_interface_status(alloc, net, &name),
        NetCall::Operator { interface, up } => {
            answer_event(alloc, take_operator(alloc, net, interface, up))
        }
        NetCall::Answer {
            interface,
            number,
            answer,
        } => answer_event(alloc, take_answer(alloc, net, interface, number, answer)),
        NetCall::DeviceStatus { name } => answer_device_status(alloc, net, &name),
        NetCall::Device(event) => answer_event(alloc, take_device(alloc, net, kernel, &event)),
        NetCall::RadioStatus { name } => answer_radio_status(alloc, net, &name),
        NetCall::Radio {
            radio,
            number,
            ports,
        } => answer_event(alloc, take_radio(alloc, net, radio, number, ports)),
    }
}

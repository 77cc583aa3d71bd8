ghost use Rattle.std.specs.Prelude.{◌≡◌, ◌≤◌, ◌++◌, List, OnOk, IfNone, [], option_to_list};
ghost use Rattle.plane_words.specs.Growth.{Grows};
ghost use Rattle.kern_model.specs.declared.object.Call.{Call};
ghost use Rattle.kern_model.specs.ObjectOrder.{set_of};
ghost use Rattle.kern_calls.specs.Due.{due_count};
ghost use Rattle.net_rules.specs.Moment.{want_of};
ghost use Rattle.net_rules.specs.Fresh.{fresh_start};
ghost use Rattle.net_settle.specs.Outside.{outside_of};
ghost use Rattle.given_objects.specs.Gifts.{AreGifts};
ghost use Rattle.net_rebuild.specs.Beside.{IsSettlingStateOf};
ghost use Rattle.net_rebuild.specs.InStep.{inputs_of, IsInStep};
ghost use Rattle.net_plane.specs.Network.{IsNew, IsOf, calls_of};
ghost use Rattle.net_plane.specs.Lent.{Lends};
ghost use Rattle.net_plane.specs.Settled.{Settles, HasMade, told_end};

use crate::net_error::NetError;
use given_objects::GivenObjects;
use kern_model::Kernel;
use known_inputs::KnownInputs;
use net_rebuild::{Follower, Graph, GraphSettling, States};
use net_rows::Conf;
use net_rules::Notice;
use net_settle::SettleError;
use plane_io::Sink;
use std::alloc::Global;
use std::collections::VecDeque;
use std::marker::Model;

/// The plane of interfaces: the rows of the loaded files, the present devices, operator states and
/// answers, what the kernel holds, and what is still to be told of requests. After every list of
/// events, once settled, the kernel holds exactly what a fresh start would give. Devices stand in a
/// graph, so that an event costs what it changes.
#[derive(Drop)]
pub struct Net {
    pub(crate) follower: Follower,
}

impl Model for Net {
    ghost use Rattle.net_rebuild.specs.InStep.{IsInStep};
    ghost use Rattle.net_plane.specs.Network.{Network};
    ghost use Rattle.net_plane.specs.Seen.{network_of};

    ghost Value = { Network };

    ghost view = { λ n. network_of n.follower };

    ghost invariant = { λ n. IsInStep n.follower };
}

impl Net {
    /// Nothing was loaded, no device is present, and nothing is held. It takes no memory.
    pub fn new(alloc: Global) -> Net
        ensures new { IsNew result }
        ensures loads { result.loads ≡ 0 }
    {
        Net {
            follower: Follower {
                inputs: KnownInputs::new(alloc),
                settling: GraphSettling::new(alloc),
                states: States::new(alloc),
                touched: Vec::new(alloc),
                notices: VecDeque::new(alloc),
            },
        }
    }

    /// The rows of the files as last loaded.
    pub fn conf(&self) -> &Conf
        ensures { result.now ≡ self.now.inputs.conf }
    {
        self.follower.inputs.conf()
    }

    /// The graph of the devices. A load makes it anew, and everything else changes it in its place.
    pub fn graph(&self) -> &Graph
        ensures { Lends self.now result.now }
    {
        are_beside(&self.follower);
        self.follower.settling.graph()
    }

    /// The number of objects in one of what is held and what is wanted, and not in the other. It
    /// takes no memory.
    pub fn due(&self) -> usize
        ensures { result ≡ due_count (set_of self.now.held) (want_of self.now.inputs) }
    {
        are_beside(&self.follower);
        self.follower.settling.due() as usize
    }

    /// What is still to be told of the last event: the requests that were lost, by number, and then
    /// those that were opened. It takes no memory.
    pub fn notice(&mut self) -> Option<Notice>
        ensures told { self.old.notices ≡ option_to_list result ++ self.new.notices }
        ensures none { IfNone result (self.old.notices ≡ []) }
        ensures stays { (self.new.inputs ≡ self.old.inputs) × (self.new.held ≡ self.old.held) }
        ensures loads { self.new.loads ≡ self.old.loads }
    {
        self.follower.notices.pop_front()
    }

    /// Makes the calls from what is held to what is wanted, in their order, and writes the line of
    /// each after it. Behind `Ok` the kernel holds exactly what a fresh start would give. It takes
    /// no memory.
    ///
    /// # Errors
    ///
    /// `KernelFailed` at the first call that fails, and `WriteFailed` at the first line that is not
    /// written, or not wholly. The calls before were made, that of the line among them; the next
    /// settling goes on from there.
    pub fn settle<K: Kernel, O: Sink>(
        &mut self,
        kernel: &mut K,
        out: &mut O,
    ) -> Result<(), NetError>
        requires { IsOf K.Kernel kernel.old self.old }
        ensures settles { Settles (calls_of self.old) (calls_of self.new)
            (outside_of O.Sink K.Kernel out.old kernel.old)
            (outside_of O.Sink K.Kernel out.new kernel.new) result }
        ensures made { (made : List Call) × HasMade made self.old self.new
            × Grows (K.calls kernel.old) (K.calls kernel.new) made }
        ensures reached { OnOk result (K.objects kernel.new ≡ want_of self.new.inputs) }
        ensures fresh { OnOk result
            (K.objects kernel.new ≡ want_of (fresh_start self.new.inputs)) }
        ensures of { IsOf K.Kernel kernel.new self.new }
        ensures loads { self.new.loads ≡ self.old.loads }
        ensures later { (K.faults kernel.old ≤ K.faults kernel.new)
            × (O.faults out.old ≤ O.faults out.new) }
    {
        are_beside(&self.follower);
        let ended = self.follower.settling.settle(kernel, out);
        are_gifts(&self.follower.settling.gifts);
        told(ended)
    }
}

/// What is held and wanted is beside the inputs, and its gifts are gifts.
pub(crate) fn are_beside(follower: &Follower)
    requires { IsInStep follower.now }
    ensures beside { IsSettlingStateOf (inputs_of follower.now) follower.now.settling }
    ensures gifts { AreGifts follower.now.settling.gifts }
{
    follower.settling.graph.is_kept();
    are_gifts(&follower.settling.gifts);
}

fn are_gifts(gifts: &GivenObjects)
    ensures { AreGifts gifts.now }
{
    let _count = gifts.len();
}

fn told(ended: Result<(), SettleError>) -> Result<(), NetError>
    ensures { result ≡ told_end ended }
{
    match ended {
        Ok(()) => Ok(()),
        Err(SettleError::KernelFailed) => Err(NetError::KernelFailed),
        Err(SettleError::WriteFailed) => Err(NetError::WriteFailed),
    }
}

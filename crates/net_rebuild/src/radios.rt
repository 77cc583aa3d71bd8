//! Answers of radios: bridges get other ports, interfaces other devices.
ghost use Rattle.std.specs.Prelude.{◌≡◌, ℕ, List, Option, Contains, OnOk, OnErr};
ghost use Rattle.net_rules.specs.declared.event.Event.TheVariants as event;
ghost use Rattle.graph_rules.specs.State.{State, names_in};
ghost use Rattle.graph_rules.specs.Conditions.{ArePorts};
ghost use Rattle.net_follow.specs.InStep.{IsInStep, LooksAs};
ghost use Rattle.net_rebuild.specs.Rebuild.{IsRebuildOf};
ghost use Rattle.net_rebuild.specs.Begun.{HasBegun};
ghost use Rattle.net_rebuild.specs.Joined.{HasMoreNames, KnowsAll, HasJoined};

use crate::beginning::begin;
use crate::rebuild::Rebuild;
use dev_graph::Graph;
use kern_model::DevName;
use net_follow::Follower;
use plane_io::Memory;
use std::alloc::Global;
use std::marker::Brand;
use std::sync::ledger::{Blank, Ledger};

/// A radio answered, and all but the graph was made anew. Names that the graph does not know join
/// it, and then it has the ports.
///
/// # Errors
///
/// `Memory` where there is not enough of it for the graph. Then that may know some plain names
/// more, which changes nothing.
pub fn join_ports(alloc: Global, follower: &mut Follower, made: Rebuild) -> Result<(), Memory>
    requires step { IsInStep follower.old }
    requires rebuild { (radio : List ℕ) × (number : ℕ) × (ports : List (Option (List ℕ)))
        × IsRebuildOf follower.old (event.Radio radio number ports) made }
    ensures step { IsInStep follower.new }
    ensures ok { (radio : List ℕ) (number : ℕ) (ports : List (Option (List ℕ)))
        → IsRebuildOf follower.old (event.Radio radio number ports) made
        → OnOk result (HasBegun (event.Radio radio number ports) 0 follower.old follower.new) }
    ensures err { OnErr result (LooksAs follower.old follower.new) }
{
    follower.settling.graph.is_kept();
    let Ok(()) = take_ports(alloc, &mut follower.settling.graph, &made) else {
        return Err(Memory);
    };
    begin::<Brand>(follower, made, Blank::new(1));
    Ok(())
}

// Names that the graph does not know join it, and then it has the ports.
fn take_ports(alloc: Global, graph: &mut Graph, made: &Rebuild) -> Result<(), Memory>
    requires { (now : State) → KnowsAll graph.old made.now.plain.items now
        → ArePorts now.known.rows (names_in now.known) made.now.ports.items }
    ensures ok { OnOk result
        (HasJoined graph.old made.now.plain.items made.now.ports.items graph.new) }
    ensures err { OnErr result (HasMoreNames graph.old graph.new) }
{
    let names = made.plain.as_slice();
    let Ok(()) = know_names(alloc, graph, names) else {
        return Err(Memory);
    };
    let ports = made.ports.as_slice();
    graph.set_ports(alloc, ports)
}

// Each of some names that the graph does not know joins it.
fn know_names(alloc: Global, graph: &mut Graph, names: &[DevName]) -> Result<(), Memory>
    ensures more { HasMoreNames graph.old graph.new }
    ensures known { OnOk result ((name : List ℕ) → Contains names.now name
        → Contains (names_in graph.new.known) name) }
{
    for name in names {
        know_name(alloc, graph, name)?;
    }
    Ok(())
}

// A name that the graph does not know joins it.
fn know_name(alloc: Global, graph: &mut Graph, name: &DevName) -> Result<(), Memory>
    ensures more { HasMoreNames graph.old graph.new }
    ensures known { OnOk result (Contains (names_in graph.new.known) name.now) }
{
    if graph.find(name).is_some() {
        return Ok(());
    }
    match graph.add_plain(alloc, *name) {
        Ok(_id) => Ok(()),
        Err(Memory) => Err(Memory),
    }
}

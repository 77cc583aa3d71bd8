//! Loads.
ghost use Rattle.std.specs.Prelude.{◌≡◌, ◌<◌, ◌^◌, Some, OnOk, OnErr, unwrap_or};
ghost use Rattle.net_rules.specs.declared.event.Event.TheVariants as event;
ghost use Rattle.net_rules.specs.Sound.{IsSound};
ghost use Rattle.graph_rules.specs.After.{loaded_after};
ghost use Rattle.graph_rules.specs.Conditions.{CanLoad};
ghost use Rattle.net_follow.specs.InStep.{IsInStep};
ghost use Rattle.net_rebuild.specs.Rebuild.{IsRebuildOf};
ghost use Rattle.net_rebuild.specs.Begun.{HasBegun};

use crate::beginning::begin;
use crate::rebuild::Rebuild;
use dev_graph::{Graph, NotLoaded};
use net_follow::Follower;
use plane_io::Memory;
use std::alloc::Global;
use std::marker::Brand;
use std::mem;
use std::sync::ledger::{Blank, Ledger};

/// Rows are loaded, of which all but the graph was made anew. The graph takes in the old one.
///
/// # Errors
///
/// `Memory` where there is not enough of it for the graph. Then nothing changes.
pub fn load(alloc: Global, follower: &mut Follower, made: Rebuild) -> Result<(), Memory>
    requires step { IsInStep follower.old }
    requires sound { IsSound made.inputs.inputs.conf }
    requires rebuild { IsRebuildOf follower.old (event.Load made.inputs.inputs.conf) made }
    requires can { CanLoad made.inputs.inputs.conf made.plain.items made.ports.items }
    requires counts { follower.old.settling.graph.loads < 2 ^ 63 }
    ensures step { IsInStep follower.new }
    ensures ok { OnOk result
        (HasBegun (event.Load made.inputs.inputs.conf) 1 follower.old follower.new) }
    ensures err { OnErr result (follower.new ≡ follower.old) }
{
    let Ok(()) = load_graph(alloc, &mut follower.settling.graph, &made) else {
        return Err(Memory);
    };
    begin::<Brand>(follower, made, Blank::new(1));
    Ok(())
}

// The graph of what was made anew takes in the old one. Where it is not loaded, the old one stays.
fn load_graph(alloc: Global, graph: &mut Graph, made: &Rebuild) -> Result<(), Memory>
    requires can { CanLoad made.now.inputs.inputs.conf made.now.plain.items made.now.ports.items }
    requires counts { graph.old.loads < 2 ^ 63 }
    ensures ok { OnOk result (graph.new ≡ loaded_after (Some graph.old) made.now.inputs.inputs.conf
        made.now.plain.items made.now.ports.items) }
    ensures err { OnErr result (graph.new ≡ graph.old) }
{
    let old = mem::replace(graph, Graph::new(alloc));
    let conf = made.inputs.conf();
    let plain = made.plain.as_slice();
    let ports = made.ports.as_slice();
    match Graph::load(alloc, conf, plain, ports, Some(old)) {
        Ok(loaded) => {
            *graph = loaded;
            Ok(())
        }
        Err(NotLoaded { old }) => {
            put_back(graph, old);
            Err(Memory)
        }
    }
}

// The old graph stands where it did.
fn put_back(graph: &mut Graph, old: Option<Graph>)
    ensures { graph.new ≡ unwrap_or old graph.old }
{
    if let Some(old) = old {
        *graph = old;
    }
}

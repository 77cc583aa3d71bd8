ghost use Rattle.std.specs.Prelude.{◌≡◌, ◌<◌, ◌≤◌, ◌++◌, [], length, map, is_some, false, IfOk};
ghost use Rattle.std.specs.Option.{option_map_or};
ghost use Rattle.use_counts.specs.Network.{with_device};
ghost use Rattle.use_counts.specs.Uses.{Stay};
ghost use Rattle.graph_rules.specs.State.{name_list};
ghost use Rattle.graph_counts.specs.Counted.{network_of};
ghost use Rattle.graph_counts.specs.Sound.{IsSound};
ghost use Rattle.graph_counts.specs.Told.{HasFewClaims, told_members};

use crate::edges::{port_edges, row_edges};
use crate::nodes::node_rows;
use graph_names::Names;
use graph_rules::RadioPort;
use kern_model::{DevName, Device};
use net_rows::NameRow;
use plane_io::Memory;
use std::alloc::Global;
use std::marker::Brand;
use std::sync::ledger::{Blank, Ledger};
use use_counts::{Graph, MarkedIds, Steps};

/// The device of a node is there, as given, or not.
fn tell_device<L: Ledger>(
    counts: &mut Graph,
    id: usize,
    device: Option<Device>,
    uses: &mut MarkedIds,
    steps: &mut Steps<L>,
)
    requires within { id < length counts.old.members }
    requires room { length counts.old.members ≤ uses.old.room }
    ensures stay { Stay uses.old uses.new }
    ensures device { counts.new ≡ with_device counts.old id (is_some device)
        (option_map_or (λ device. device.carrier) device false) }
{
    match device {
        Some(device) => counts.set_present(id, device.carrier, uses, steps),
        None => counts.set_absent(id, uses, steps),
    }
}

/// Tells each node the device and the claims of its name.
fn tell<L: Ledger>(names: &Names, counts: &mut Graph, uses: &mut MarkedIds, blank: Blank)
    requires name { blank.name ≡ L.name }
    requires parts { blank.parts ≡ L.parts }
    requires some { 0 < L.parts }
    requires size { length counts.old.members ≡ length names.now }
    requires room { length names.now ≤ uses.old.room }
    requires few { HasFewClaims names.now }
    ensures { counts.new ≡ record counts.old {
      members = told_members counts.old.members names.now;
    } }
{
    let mut steps = Steps::<L>::new(blank);
    for id in 0..names.len() {
        tell_device(counts, id, names.device(id), uses, &mut steps);
        counts.set_claim(id, names.claims(id), uses, &mut steps);
    }
}

/// The counts of names, of which those of the rows come first.
pub fn counts_of(
    alloc: Global,
    names: &Names,
    rows: &[NameRow],
    plain: &[DevName],
    radio: &[RadioPort],
) -> Result<Graph, Memory>
    requires sound { IsSound (record {
      rows = rows.now;
      vlans = [];
      names = names.now;
      radio = radio.now;
    }) }
    requires front { name_list names.now ≡ map (λ row. row.name) rows.now ++ plain.now }
    requires few { HasFewClaims names.now }
    ensures { IfOk result (λ g. g ≡ network_of (record {
      rows = rows.now;
      vlans = [];
      names = names.now;
      radio = radio.now;
    })) }
{
    let nodes = node_rows(alloc, rows, plain)?;
    let fixed = row_edges(alloc, names, rows)?;
    let ports = port_edges(alloc, names, rows, radio)?;
    // The counts have room for fewer edges than this.
    if fixed.len() + ports.len() >= 1 << 20 {
        return Err(Memory);
    }
    let mut counts = Graph::load(alloc, &nodes, &fixed, &ports)?;
    let mut uses = MarkedIds::with_room(alloc, names.len())?;
    tell::<Brand>(names, &mut counts, &mut uses, Blank::new(1));
    Ok(counts)
}

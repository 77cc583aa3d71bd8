ghost use Rattle.std.specs.Prelude.{◌≡◌, ◌++◌, ◌∷◌, [], ℕ, List, IfOk, OnOk};
ghost use Rattle.std.specs.BTreeSet.{contains};
ghost use Rattle.net_devices.specs.BridgeVlans as spec;
ghost use Rattle.net_devices.specs.VlanTable.{IsTable, HasPvidsToo};

use kern_model::DevName;
use net_rows::{VlanEntry, VlanRow};
use plane_io::{Items, Memory};
use std::alloc::Global;
use std::collections::BTreeSet;

/// The rows of `bridge-vlan` sections so far, with the VLANs and the ports with a PVID of those
/// that count, each behind its bridge.
#[derive(Drop)]
pub struct VlanTable {
    rows: Items<VlanRow>,
    vlans: BTreeSet<(DevName, u16)>,
    pvids: BTreeSet<(DevName, DevName)>,
}

impl VlanTable {
    /// No rows.
    pub fn new(alloc: Global) -> VlanTable
        ensures table { IsTable result }
        ensures rows { result.rows ≡ [] }
    {
        VlanTable {
            rows: Items::new(alloc),
            vlans: BTreeSet::new(alloc),
            pvids: BTreeSet::new(alloc),
        }
    }

    /// Whether a row that counts is this VLAN of the bridge.
    pub fn is_repeated(&self, bridge: &Option<DevName>, id: u16) -> bool
        requires { IsTable self.now }
        ensures { result ≡ spec.is_repeated self.now.rows bridge.now id }
    {
        match bridge {
            Some(bridge) => self.vlans.contains(&(*bridge, id)),
            None => false,
        }
    }

    /// Whether a row that counts gave the port of the bridge its PVID.
    pub fn has_pvid(&self, bridge: &Option<DevName>, port: &DevName) -> bool
        requires { IsTable self.now }
        ensures { result ≡ spec.has_pvid self.now.rows bridge.now port.now }
    {
        match bridge {
            Some(bridge) => self.pvids.contains(&(*bridge, *port)),
            None => false,
        }
    }

    /// Adds a row.
    pub fn add(&mut self, row: VlanRow) -> Result<(), Memory>
        requires { IsTable self.old }
        ensures table { OnOk result (IsTable self.new) }
        ensures rows { OnOk result (self.new.rows ≡ self.old.rows ++ row ∷ []) }
    {
        let Some(bridge) = counted_bridge(&row) else {
            return self.rows.push(row);
        };
        self.vlans.insert((bridge, row.id))?;
        add_pvids(&mut self.pvids, &bridge, row.entries.as_slice())?;
        self.rows.push(row)?;
        Ok(())
    }

    /// Gives the rows.
    pub fn into_rows(self) -> Items<VlanRow>
        ensures { result ≡ self.rows }
    {
        let VlanTable { rows, .. } = self;
        rows
    }
}

// The bridge of a row that counts.
fn counted_bridge(row: &VlanRow) -> Option<DevName>
    ensures { result ≡ spec.counted_bridge row.now }
{
    if row.passed_over {
        return None;
    }
    row.bridge
}

fn add_pvids(
    pvids: &mut BTreeSet<(DevName, DevName)>,
    bridge: &DevName,
    entries: &[VlanEntry],
) -> Result<(), Memory>
    ensures { OnOk result (HasPvidsToo pvids.old pvids.new bridge.now entries.now) }
{
    for entry in entries {
        add_pvid(pvids, bridge, entry)?;
    }
    Ok(())
}

fn add_pvid(
    pvids: &mut BTreeSet<(DevName, DevName)>,
    bridge: &DevName,
    entry: &VlanEntry,
) -> Result<(), Memory>
    ensures { OnOk result (HasPvidsToo pvids.old pvids.new bridge.now (entry.now ∷ [])) }
{
    if !entry.pvid {
        return Ok(());
    }
    pvids.insert((*bridge, entry.port))?;
    Ok(())
}

ghost use Rattle.std.specs.Prelude.{◌≡◌, ◌++◌, IfOk, OnOk, map, filter, nat_lt};
ghost use Rattle.net_rows.specs.declared.fault_name.FaultName.TheVariants as fault;
ghost use Rattle.net_devices.specs.BridgeVlans as spec;
ghost use Rattle.net_devices.specs.Faults.{about};
ghost use Rattle.net_devices.specs.Kinds as kinds;
ghost use Rattle.net_devices.specs.VlanTable.{IsTable};

use crate::entries::{bad_words, entries_of, first_entries, repeated_ports};
use crate::faults::{add_about, add_about_names, add_about_texts, add_if, is_read};
use crate::kinds::{id_or_zero, name_if_read};
use crate::levels::is_bridge;
use crate::said::port_words;
use crate::said_index::SaidIndex;
use crate::vlan_table::VlanTable;
use kern_model::DevName;
use net_rows::{
    FaultName, RowFault, Stated, VlanEntry, VlanRow, stated_name, stated_vlan_id, truth_of,
};
use plane_io::{Items, Memory, Text};
use std::alloc::Global;
use uci_tree::{Opt, Section};

/// How many `bridge-vlan` sections a configuration may have.
pub const MOST_VLAN_ROWS: usize = 1024;

/// How many entries its `bridge-vlan` sections may have together.
pub const MOST_VLAN_ENTRIES: usize = 16384;

/// What a `bridge-vlan` section says.
#[derive(Drop)]
pub struct VlanSaid {
    pub bridge: Stated<DevName>,
    pub id: Stated<u16>,
    pub local: bool,
    pub words: Items<Text>,
}

/// The rows of the `bridge-vlan` sections, in file order. `said` is what the sections that count
/// say.
pub fn vlan_rows(
    alloc: Global,
    said: &SaidIndex,
    sections: &[Section],
) -> Result<Items<VlanRow>, Memory>
    ensures { IfOk result (λ rows. rows ≡ spec.vlan_rows said.now sections.now) }
{
    let mut table = VlanTable::new(alloc);
    for section in sections {
        if is_vlan_section(section) {
            let vlan = vlan_said(alloc, section.options.as_slice())?;
            let row = vlan_row(alloc, said, &table, &vlan)?;
            table.add(row)?;
        }
    }
    Ok(table.into_rows())
}

fn is_vlan_section(section: &Section) -> bool
    ensures { result ≡ spec.is_vlan_section section.now }
{
    section.kind.as_bytes() == b"bridge-vlan".as_slice()
}

fn vlan_said(alloc: Global, options: &[Opt]) -> Result<VlanSaid, Memory>
    ensures { IfOk result (λ vlan. vlan ≡ spec.vlan_said options.now) }
{
    let words = port_words(alloc, options)?;
    Ok(VlanSaid {
        bridge: stated_name(options, b"device"),
        id: stated_vlan_id(options, b"vlan"),
        local: truth_of(options, b"local", true),
        words,
    })
}

fn vlan_row(
    alloc: Global,
    said: &SaidIndex,
    earlier: &VlanTable,
    vlan: &VlanSaid,
) -> Result<VlanRow, Memory>
    requires { IsTable earlier.now }
    ensures { IfOk result (λ row. row ≡ spec.vlan_row said.now earlier.now.rows vlan.now) }
{
    let entries = entries_of(alloc, vlan.words.as_slice())?;
    let first = first_entries(alloc, entries.as_slice())?;
    let mut faults = passing_faults(alloc, said, earlier, vlan)?;
    let passed_over = !faults.as_slice().is_empty();
    add_about_texts(
        alloc,
        &mut faults,
        FaultName::BadPort,
        bad_words(alloc, vlan.words.as_slice())?.as_slice(),
    )?;
    add_about_names(
        alloc,
        &mut faults,
        FaultName::DoublePort,
        repeated_ports(alloc, entries.as_slice())?.as_slice(),
    )?;
    let bridge = name_if_read(&vlan.bridge);
    add_second_pvids(alloc, &mut faults, earlier, &bridge, first.as_slice())?;
    Ok(VlanRow {
        bridge,
        id: id_or_zero(&vlan.id),
        local: vlan.local,
        passed_over,
        entries: with_one_pvid(alloc, earlier, &bridge, first.as_slice())?,
        faults,
    })
}

// The faults that pass a row over.
fn passing_faults(
    alloc: Global,
    said: &SaidIndex,
    earlier: &VlanTable,
    vlan: &VlanSaid,
) -> Result<Items<RowFault>, Memory>
    requires { IsTable earlier.now }
    ensures { IfOk result (λ faults. faults
        ≡ spec.passing_faults said.now earlier.now.rows vlan.now) }
{
    let mut faults = Items::new(alloc);
    let is_same = earlier.is_repeated(&name_if_read(&vlan.bridge), id_or_zero(&vlan.id));
    add_if(
        &mut faults,
        !is_stated_bridge(said, &vlan.bridge),
        FaultName::NoBridge,
    )?;
    add_if(&mut faults, !is_read(&vlan.id), FaultName::BadVid)?;
    add_if(&mut faults, is_same, FaultName::SameVlan)?;
    Ok(faults)
}

fn is_stated_bridge(said: &SaidIndex, stated: &Stated<DevName>) -> bool
    ensures { result ≡ spec.is_stated_bridge said.now stated.now }
{
    match stated {
        Stated::Read(name) => is_bridge(said, name),
        Stated::Absent => false,
        Stated::Unread => false,
    }
}

fn add_second_pvids(
    alloc: Global,
    faults: &mut Items<RowFault>,
    earlier: &VlanTable,
    bridge: &Option<DevName>,
    entries: &[VlanEntry],
) -> Result<(), Memory>
    requires { IsTable earlier.now }
    ensures { OnOk result (faults.new ≡ faults.old
        ++ map (λ entry. about fault.SecondPvid entry.port)
        (filter (spec.is_second earlier.now.rows bridge.now) entries.now)) }
{
    for entry in entries {
        if is_second(earlier, bridge, entry) {
            add_about(alloc, faults, FaultName::SecondPvid, entry.port.text())?;
        }
    }
    Ok(())
}

// The entries, without the PVID that their port has already.
fn with_one_pvid(
    alloc: Global,
    earlier: &VlanTable,
    bridge: &Option<DevName>,
    entries: &[VlanEntry],
) -> Result<Items<VlanEntry>, Memory>
    requires { IsTable earlier.now }
    ensures { IfOk result (λ kept. kept
        ≡ map (spec.with_one_pvid earlier.now.rows bridge.now) entries.now) }
{
    let mut kept = Items::new(alloc);
    for entry in entries {
        let pvid = entry.pvid && !is_second(earlier, bridge, entry);
        kept.push(VlanEntry { pvid, ..*entry })?;
    }
    Ok(kept)
}

fn is_second(earlier: &VlanTable, bridge: &Option<DevName>, entry: &VlanEntry) -> bool
    requires { IsTable earlier.now }
    ensures { result ≡ spec.is_second earlier.now.rows bridge.now entry.now }
{
    entry.pvid && earlier.has_pvid(bridge, &entry.port)
}

/// Whether the rows have more entries than a configuration may have.
pub fn has_too_many_entries(rows: &[VlanRow]) -> bool
    ensures { result ≡ nat_lt MOST_VLAN_ENTRIES (spec.entry_count rows.now) }
{
    let mut left = MOST_VLAN_ENTRIES;
    for row in rows {
        let count = row.entries.as_slice().len();
        if count > left {
            return true;
        }
        left -= count;
    }
    false
}

//! The rows of `bridge-vlan` sections.
use crate::devices::put_name;
use crate::put::{put_faults, put_if, put_number, put_word};
use net_rows::{VlanEntry, VlanRow};
use std::alloc::Global;

/// Puts a line for each VLAN of a bridge.
pub(crate) fn put_vlans(alloc: Global, out: &mut Vec<u8>, rows: &[VlanRow]) -> anyhow::Result<()> {
    for row in rows {
        out.extend_from_slice(b"vlan")?;
        put_name(out, &row.bridge)?;
        put_number(alloc, out, u64::from(row.id))?;
        put_if(out, row.local, b"local")?;
        put_if(out, row.passed_over, b"passed over")?;
        for entry in row.entries.as_slice() {
            put_entry(out, entry)?;
        }
        put_faults(out, row.faults.as_slice())?;
    }
    Ok(())
}

/// Puts a port with `:u` or `:t`, and `*` where it has its PVID here.
fn put_entry(out: &mut Vec<u8>, entry: &VlanEntry) -> anyhow::Result<()> {
    put_word(out, entry.port.text())?;
    out.extend_from_slice(if entry.untagged { b":u" } else { b":t" })?;
    if entry.pvid {
        out.push(b'*')?;
    }
    Ok(())
}

//! The rows of `device` sections, and those of names.
use crate::put::{put_counted, put_faults, put_if, put_number, put_word};
use kern_model::{DevName, Mac};
use net_rows::{DeviceRow, NameKind, NameRow};
use std::alloc::Global;

/// Puts a line for each `device` section.
pub(crate) fn put_devices(
    alloc: Global,
    out: &mut Vec<u8>,
    rows: &[DeviceRow],
) -> anyhow::Result<()> {
    for row in rows {
        out.extend_from_slice(b"device")?;
        put_name(out, &row.name)?;
        put_faults(out, row.faults.as_slice())?;
    }
    Ok(())
}

/// Puts a name behind a space, and `-` where there is none.
pub(crate) fn put_name(out: &mut Vec<u8>, name: &Option<DevName>) -> anyhow::Result<()> {
    match name {
        Some(name) => put_word(out, name.text()),
        None => put_word(out, b"-"),
    }
}

/// Puts a line for each name.
pub(crate) fn put_names(alloc: Global, out: &mut Vec<u8>, rows: &[NameRow]) -> anyhow::Result<()> {
    for row in rows {
        out.extend_from_slice(b"name")?;
        put_word(out, row.name.text())?;
        put_kind(alloc, out, &row.kind)?;
        put_counted(alloc, out, b"level", u64::from(row.level))?;
        put_if(out, row.broken, b"broken")?;
        put_values(alloc, out, row)?;
        put_faults(out, row.faults.as_slice())?;
    }
    Ok(())
}

fn put_values(alloc: Global, out: &mut Vec<u8>, row: &NameRow) -> anyhow::Result<()> {
    if let Some(mtu) = row.mtu {
        put_counted(alloc, out, b"mtu", u64::from(mtu))?;
    }
    if let Some(mac) = &row.mac {
        put_mac(alloc, out, mac)?;
    }
    Ok(())
}

/// Puts a hardware address behind ` mac `.
pub(crate) fn put_mac(alloc: Global, out: &mut Vec<u8>, mac: &Mac) -> anyhow::Result<()> {
    put_word(out, b"mac")?;
    let Mac([a, b, c, d, e, f]) = *mac;
    let digits = format!(in alloc; "{a:02x}:{b:02x}:{c:02x}:{d:02x}:{e:02x}:{f:02x}")?;
    put_word(out, digits.as_bytes())
}

fn put_kind(alloc: Global, out: &mut Vec<u8>, kind: &NameKind) -> anyhow::Result<()> {
    match kind {
        NameKind::Plain => put_word(out, b"plain"),
        NameKind::Bridge { empty, ports } => {
            put_word(out, b"bridge")?;
            put_ports(out, ports.as_slice())?;
            put_if(out, *empty, b"empty")
        }
        NameKind::Vlan { lower, id } => {
            put_word(out, b"vlan")?;
            put_number(alloc, out, u64::from(*id))?;
            put_word(out, b"over")?;
            put_name(out, lower)
        }
    }
}

/// Puts the ports of a bridge between brackets.
fn put_ports(out: &mut Vec<u8>, ports: &[DevName]) -> anyhow::Result<()> {
    put_word(out, b"[")?;
    for port in ports {
        put_word(out, port.text())?;
    }
    put_word(out, b"]")
}

//! The rows of interfaces and of routes.
use crate::devices::put_name;
use crate::put::{
    put_cidr, put_counted, put_faults, put_if, put_number, put_options, put_via, put_word,
};
use net_rows::{InterfaceRow, RouteRow};
use std::alloc::Global;

/// Puts a line for each interface: its name, protocol, device and metric, what is said of it, its
/// addresses and gateways, the options that its request shows, and its faults.
pub(crate) fn put_interfaces(
    alloc: Global,
    out: &mut Vec<u8>,
    rows: &[InterfaceRow],
) -> anyhow::Result<()> {
    for row in rows {
        out.extend_from_slice(b"interface")?;
        put_word(out, row.name.as_bytes())?;
        put_word(out, row.proto.as_bytes())?;
        put_name(out, &row.device)?;
        put_counted(alloc, out, b"metric", u64::from(row.metric))?;
        put_said(out, row)?;
        put_given(out, row)?;
        put_options(out, row.options.as_slice())?;
        put_faults(out, row.faults.as_slice())?;
    }
    Ok(())
}

fn put_said(out: &mut Vec<u8>, row: &InterfaceRow) -> anyhow::Result<()> {
    put_if(out, row.anonymous, b"anonymous")?;
    put_if(out, row.autostart, b"auto")?;
    put_if(out, row.disabled, b"disabled")?;
    put_if(out, row.force_link, b"force")
}

fn put_given(out: &mut Vec<u8>, row: &InterfaceRow) -> anyhow::Result<()> {
    for cidr in row.addresses.as_slice() {
        put_cidr(out, *cidr)?;
    }
    for addr in row.gateways.as_slice() {
        put_via(out, *addr)?;
    }
    Ok(())
}

/// Puts a line for each route: the place of its interface among the interfaces, where it leads to,
/// its metric and table, and its faults.
pub(crate) fn put_routes(
    alloc: Global,
    out: &mut Vec<u8>,
    rows: &[RouteRow],
) -> anyhow::Result<()> {
    for row in rows {
        out.extend_from_slice(b"route of")?;
        match row.interface {
            Some(place) => put_number(alloc, out, u64::try_from(place)?)?,
            None => put_word(out, b"-")?,
        }
        put_cidr(out, row.target)?;
        if let Some(via) = row.via {
            put_via(out, via)?;
        }
        put_counted(alloc, out, b"metric", u64::from(row.metric))?;
        put_counted(alloc, out, b"table", u64::from(row.table))?;
        put_if(out, row.disabled, b"disabled")?;
        put_faults(out, row.faults.as_slice())?;
    }
    Ok(())
}

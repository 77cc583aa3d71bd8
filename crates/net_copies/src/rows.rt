ghost use Rattle.std.specs.Prelude.{◌≡◌, IfOk};

use crate::copies::{copy_items, copy_options, copy_text};
use net_rows::{
    Conf, DeviceRow, InterfaceRow, NameKind, NameRow, RadioRow, RouteRow, RowFault, VlanRow,
    WifiRow,
};
use plane_io::{Items, Memory};
use std::alloc::Global;

/// The same rows, in memory of their own.
pub fn copy_conf(alloc: Global, conf: &Conf) -> Result<Conf, Memory>
    ensures { IfOk result (λ copy. copy ≡ conf.now) }
{
    Ok(Conf {
        interfaces: copy_interfaces(alloc, conf.interfaces.as_slice())?,
        devices: copy_devices(alloc, conf.devices.as_slice())?,
        routes: copy_routes(alloc, conf.routes.as_slice())?,
        radios: copy_radios(alloc, conf.radios.as_slice())?,
        names: copy_names(alloc, conf.names.as_slice())?,
        vlans: copy_vlans(alloc, conf.vlans.as_slice())?,
    })
}

fn copy_interfaces(alloc: Global, rows: &[InterfaceRow]) -> Result<Items<InterfaceRow>, Memory>
    ensures { IfOk result (λ copies. copies ≡ rows.now) }
{
    let mut copies = Items::new(alloc);
    for row in rows {
        copies.push(copy_interface(alloc, row)?)?;
    }
    Ok(copies)
}

fn copy_interface(alloc: Global, row: &InterfaceRow) -> Result<InterfaceRow, Memory>
    ensures { IfOk result (λ copy. copy ≡ row.now) }
{
    Ok(InterfaceRow {
        name: row.name.copy()?,
        anonymous: row.anonymous,
        proto: row.proto.copy()?,
        device: row.device,
        autostart: row.autostart,
        disabled: row.disabled,
        force_link: row.force_link,
        metric: row.metric,
        addresses: copy_items(alloc, row.addresses.as_slice())?,
        gateways: copy_items(alloc, row.gateways.as_slice())?,
        options: copy_options(alloc, row.options.as_slice())?,
        faults: copy_faults(alloc, row.faults.as_slice())?,
    })
}

fn copy_devices(alloc: Global, rows: &[DeviceRow]) -> Result<Items<DeviceRow>, Memory>
    ensures { IfOk result (λ copies. copies ≡ rows.now) }
{
    let mut copies = Items::new(alloc);
    for row in rows {
        copies.push(copy_device(alloc, row)?)?;
    }
    Ok(copies)
}

fn copy_device(alloc: Global, row: &DeviceRow) -> Result<DeviceRow, Memory>
    ensures { IfOk result (λ copy. copy ≡ row.now) }
{
    Ok(DeviceRow {
        name: row.name,
        faults: copy_faults(alloc, row.faults.as_slice())?,
    })
}

fn copy_routes(alloc: Global, rows: &[RouteRow]) -> Result<Items<RouteRow>, Memory>
    ensures { IfOk result (λ copies. copies ≡ rows.now) }
{
    let mut copies = Items::new(alloc);
    for row in rows {
        copies.push(copy_route(alloc, row)?)?;
    }
    Ok(copies)
}

fn copy_route(alloc: Global, row: &RouteRow) -> Result<RouteRow, Memory>
    ensures { IfOk result (λ copy. copy ≡ row.now) }
{
    Ok(RouteRow {
        interface: row.interface,
        target: row.target,
        via: row.via,
        metric: row.metric,
        table: row.table,
        disabled: row.disabled,
        faults: copy_faults(alloc, row.faults.as_slice())?,
    })
}

fn copy_radios(alloc: Global, rows: &[RadioRow]) -> Result<Items<RadioRow>, Memory>
    ensures { IfOk result (λ copies. copies ≡ rows.now) }
{
    let mut copies = Items::new(alloc);
    for row in rows {
        copies.push(copy_radio(alloc, row)?)?;
    }
    Ok(copies)
}

fn copy_radio(alloc: Global, row: &RadioRow) -> Result<RadioRow, Memory>
    ensures { IfOk result (λ copy. copy ≡ row.now) }
{
    Ok(RadioRow {
        name: row.name.copy()?,
        disabled: row.disabled,
        options: copy_options(alloc, row.options.as_slice())?,
        rows: copy_wifi_rows(alloc, row.rows.as_slice())?,
        faults: copy_faults(alloc, row.faults.as_slice())?,
    })
}

fn copy_wifi_rows(alloc: Global, rows: &[WifiRow]) -> Result<Items<WifiRow>, Memory>
    ensures { IfOk result (λ copies. copies ≡ rows.now) }
{
    let mut copies = Items::new(alloc);
    for row in rows {
        copies.push(copy_wifi_row(alloc, row)?)?;
    }
    Ok(copies)
}

fn copy_wifi_row(alloc: Global, row: &WifiRow) -> Result<WifiRow, Memory>
    ensures { IfOk result (λ copy. copy ≡ row.now) }
{
    Ok(WifiRow {
        network: copy_text(&row.network)?,
        disabled: row.disabled,
        options: copy_options(alloc, row.options.as_slice())?,
    })
}

fn copy_names(alloc: Global, rows: &[NameRow]) -> Result<Items<NameRow>, Memory>
    ensures { IfOk result (λ copies. copies ≡ rows.now) }
{
    let mut copies = Items::new(alloc);
    for row in rows {
        copies.push(copy_name(alloc, row)?)?;
    }
    Ok(copies)
}

fn copy_name(alloc: Global, row: &NameRow) -> Result<NameRow, Memory>
    ensures { IfOk result (λ copy. copy ≡ row.now) }
{
    Ok(NameRow {
        name: row.name,
        kind: copy_kind(alloc, &row.kind)?,
        level: row.level,
        broken: row.broken,
        mtu: row.mtu,
        mac: row.mac,
        faults: copy_faults(alloc, row.faults.as_slice())?,
    })
}

fn copy_kind(alloc: Global, kind: &NameKind) -> Result<NameKind, Memory>
    ensures { IfOk result (λ copy. copy ≡ kind.now) }
{
    match kind {
        NameKind::Plain => Ok(NameKind::Plain),
        NameKind::Bridge { empty, ports } => Ok(NameKind::Bridge {
            empty: *empty,
            ports: copy_items(alloc, ports.as_slice())?,
        }),
        NameKind::Vlan { lower, id } => Ok(NameKind::Vlan {
            lower: *lower,
            id: *id,
        }),
    }
}

fn copy_vlans(alloc: Global, rows: &[VlanRow]) -> Result<Items<VlanRow>, Memory>
    ensures { IfOk result (λ copies. copies ≡ rows.now) }
{
    let mut copies = Items::new(alloc);
    for row in rows {
        copies.push(copy_vlan(alloc, row)?)?;
    }
    Ok(copies)
}

fn copy_vlan(alloc: Global, row: &VlanRow) -> Result<VlanRow, Memory>
    ensures { IfOk result (λ copy. copy ≡ row.now) }
{
    Ok(VlanRow {
        bridge: row.bridge,
        id: row.id,
        local: row.local,
        passed_over: row.passed_over,
        entries: copy_items(alloc, row.entries.as_slice())?,
        faults: copy_faults(alloc, row.faults.as_slice())?,
    })
}

fn copy_faults(alloc: Global, faults: &[RowFault]) -> Result<Items<RowFault>, Memory>
    ensures { IfOk result (λ copies. copies ≡ faults.now) }
{
    let mut copies = Items::new(alloc);
    for fault in faults {
        copies.push(copy_fault(fault)?)?;
    }
    Ok(copies)
}

fn copy_fault(fault: &RowFault) -> Result<RowFault, Memory>
    ensures { IfOk result (λ copy. copy ≡ fault.now) }
{
    Ok(RowFault {
        name: fault.name,
        argument: copy_text(&fault.argument)?,
    })
}

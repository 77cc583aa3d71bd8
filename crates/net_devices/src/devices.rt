ghost use Rattle.std.specs.Prelude.{◌≡◌, ◌≤◌, ◌<◌, ℕ, length, Err, IfOk};
ghost use Rattle.net_rows.specs.declared.conf_error.ConfError.TheVariants.{Limit};
ghost use Rattle.net_devices.specs.declared.devices.TheConstants.{MOST_NAMES};
ghost use Rattle.net_devices.specs.Devices as spec;

use crate::bridge_vlans::vlan_rows;
use crate::counted::all_said;
use crate::name_rows::{rows_of_names, rows_of_sections};
use crate::names::all_names;
use crate::said_index::SaidIndex;
use net_rows::{ConfError, DeviceRow, NameRow, VlanRow};
use plane_io::Items;
use std::alloc::Global;
use uci_tree::Package;

/// How many names of network devices a configuration may have.
pub const MOST_NAMES: usize = 4096;

/// What a `network` package says about devices: the rows of its `device` sections, of the names
/// that it speaks of, and of its `bridge-vlan` sections.
#[derive(Drop)]
pub struct DeviceConf {
    pub devices: Items<DeviceRow>,
    pub names: Items<NameRow>,
    pub vlans: Items<VlanRow>,
}

/// The rows of a `network` package about devices, each with its faults. `Limit` where there are
/// more than 4,096 names.
pub fn read_devices(alloc: Global, network: &Package) -> Result<DeviceConf, ConfError>
    ensures rows { IfOk result (λ conf. conf ≡ spec.device_conf network.now.sections) }
    ensures within { IfOk result
        (λ conf. length (spec.all_names network.now.sections) ≤ MOST_NAMES) }
    ensures limit { (number : ℕ) → result ≡ Err (Limit number) →
        spec.IsOverLimit network.now.sections number }
{
    let sections = network.sections.as_slice();
    let said = SaidIndex::new(alloc, all_said(alloc, sections)?)?;
    let names = all_names(alloc, &said)?;
    if names.as_slice().len() > MOST_NAMES {
        return Err(ConfError::Limit {
            number: MOST_NAMES as u64,
        });
    }
    let devices = rows_of_sections(alloc, &said, sections)?;
    let names = rows_of_names(alloc, &said, names.as_slice())?;
    let vlans = vlan_rows(alloc, &said, sections)?;
    Ok(DeviceConf {
        devices,
        names,
        vlans,
    })
}

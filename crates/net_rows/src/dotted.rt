ghost use Rattle.std.specs.Prelude.{◌≡◌};
ghost use Rattle.net_rows.specs.Dotted as spec;

use crate::cut::cut_last;
use crate::number::read_vlan_id;
use kern_model::{DevName, read_name};

/// What a name of the form X.N stands for: VLAN `id` N over the name X.
#[derive(Clone, Copy)]
pub struct VlanParts {
    pub lower: DevName,
    pub id: u16,
}

/// What a device name stands for, where it has the form X.N: X is a device name, and N a decimal
/// from 1 to 4094 without leading zeros. It is cut at its last dot.
pub fn vlan_parts(name: &DevName) -> Option<VlanParts>
    ensures { result ≡ spec.vlan_parts name.now }
{
    let Some((front, digits)) = cut_last(name.text(), b'.') else {
        return None;
    };
    let Some(lower) = read_name(front) else {
        return None;
    };
    let Some(id) = vlan_id(digits) else {
        return None;
    };
    Some(VlanParts { lower, id })
}

fn vlan_id(digits: &[u8]) -> Option<u16>
    ensures { result ≡ spec.id_of digits.now }
{
    let Some((first, _)) = digits.split_first() else {
        return None;
    };
    if *first == b'0' {
        return None;
    }
    read_vlan_id(digits)
}

//! Why what happens to a device is refused.
ghost use Rattle.std.specs.Prelude.{◌≡◌, ◌||◌, not, is_some, is_none, length, nat_le};
ghost use Rattle.std.specs.Option.{option_copied};
ghost use Rattle.kern_model.specs.ObjectOrder.{Objects};
ghost use Rattle.net_rules.specs.declared.inputs.Inputs.{Inputs};
ghost use Rattle.net_rules.specs.declared.refusal.Refusal.TheVariants as refused;
ghost use Rattle.net_rules.specs.declared.refusal.TheConstants as most;
ghost use Rattle.net_rules.specs.Rows as rows;
ghost use Rattle.net_rules.specs.Inputs.{device_in};
ghost use Rattle.net_rules.specs.Refusal as spec;
ghost use Rattle.known_inputs.specs.Steps.{name_of};
ghost use Rattle.net_view.specs.Places.{named};
ghost use Rattle.net_reach.specs.Reach.{IsReachOf};

use crate::stale::refused_if;
use kern_model::{DevEvent, DevName};
use known_inputs::KnownInputs;
use net_reach::Reach;
use net_rows::{NameKind, NameRow, vlan_parts};
use net_rules::{MOST_DEVICES, Refusal};

/// Why what happens to a device is refused, if it is. The caller tells whether a link of its name
/// is held.
pub fn device_refusal(
    inputs: &KnownInputs,
    reach: &Reach,
    is_link_held: bool,
    what: &DevEvent,
) -> Option<Refusal>
    requires { IsReachOf inputs.now.inputs reach.now }
    ensures { (held : Objects) → is_link_held ≡ spec.is_held_link held (name_of what.now)
        → result ≡ spec.device_refusal (record { inputs = inputs.now.inputs; held = held })
        what.now }
{
    match what {
        DevEvent::Add { name, .. } => add_refusal(inputs, reach, is_link_held, name),
        DevEvent::Remove { name } => absent_refusal(reach, name),
        DevEvent::Carrier { name, .. } => absent_refusal(reach, name),
    }
}

fn add_refusal(
    inputs: &KnownInputs,
    reach: &Reach,
    is_link_held: bool,
    name: &DevName,
) -> Option<Refusal>
    requires { IsReachOf inputs.now.inputs reach.now }
    ensures { result ≡ spec.or_else (spec.refused_if
        (is_some (device_in inputs.now.inputs.devices name.now)
        || (not (rows.is_plain inputs.now.inputs.conf name.now) || is_link_held)) refused.Known)
        (spec.refused_if (nat_le most.MOST_DEVICES (length inputs.now.inputs.devices))
        (refused.Limit most.MOST_DEVICES)) }
{
    if is_known(inputs, reach, is_link_held, name) {
        return Some(Refusal::Known);
    }
    let is_full = MOST_DEVICES <= inputs.devices().len() as u64;
    refused_if(
        is_full,
        Refusal::Limit {
            number: MOST_DEVICES,
        },
    )
}

// Whether a name is that of a present device, of a bridge or a VLAN of the rows, one of the form
// X.N among them, or of a held link.
fn is_known(inputs: &KnownInputs, reach: &Reach, is_link_held: bool, name: &DevName) -> bool
    requires { IsReachOf inputs.now.inputs reach.now }
    ensures { result ≡ (is_some (device_in inputs.now.inputs.devices name.now)
        || (not (rows.is_plain inputs.now.inputs.conf name.now) || is_link_held)) }
{
    let is_present = has_device(reach, name);
    let is_plain = is_plain(inputs, reach, name);
    is_present | (!is_plain | is_link_held)
}

fn absent_refusal(reach: &Reach, name: &DevName) -> Option<Refusal>
    ensures { (inputs : Inputs) → IsReachOf inputs reach.now → result
        ≡ spec.refused_if (is_none (device_in inputs.devices name.now)) refused.NoDevice }
{
    refused_if(!has_device(reach, name), Refusal::NoDevice)
}

fn has_device(reach: &Reach, name: &DevName) -> bool
    ensures { (inputs : Inputs) → IsReachOf inputs reach.now → result
        ≡ is_some (device_in inputs.devices name.now) }
{
    reach.device_place(name).is_some()
}

// Whether a name is never made.
fn is_plain(inputs: &KnownInputs, reach: &Reach, name: &DevName) -> bool
    requires { IsReachOf inputs.now.inputs reach.now }
    ensures { result ≡ rows.is_plain inputs.now.inputs.conf name.now }
{
    match row_of(inputs, reach, name) {
        Some(row) => is_plain_kind(&row.kind),
        None => vlan_parts(name).is_none(),
    }
}

// The row of a name.
fn row_of<'a>(inputs: &'a KnownInputs, reach: &Reach, name: &DevName) -> Option<&'a NameRow>
    requires { IsReachOf inputs.now.inputs reach.now }
    ensures { option_copied result
        ≡ named (λ row. row.name) inputs.now.inputs.conf.names name.now }
{
    match reach.row_place(name) {
        Some(place) => inputs.conf().names.as_slice().get(place),
        None => None,
    }
}

fn is_plain_kind(kind: &NameKind) -> bool
    ensures { result ≡ rows.is_plain_kind kind.now }
{
    match kind {
        NameKind::Plain => true,
        NameKind::Bridge { .. } => false,
        NameKind::Vlan { .. } => false,
    }
}

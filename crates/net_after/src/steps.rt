ghost use Rattle.std.specs.Prelude.{◌≡◌, IfOk};
ghost use Rattle.net_rules.specs.After as spec;
ghost use Rattle.net_rules.specs.Numbers.{AreCountable};

use crate::changes::changed;
use crate::drops::{interfaces_dropped, radios_dropped};
use crate::needed::{interface_needs, radio_needs};
use crate::opens::requests_opened;
use net_rules::{Event, Inputs};
use net_view::Levels;
use plane_io::Memory;
use std::alloc::Global;

/// The inputs after an event.
pub fn after(alloc: Global, inputs: Inputs, event: Event) -> Result<Inputs, Memory>
    requires { AreCountable inputs }
    ensures { IfOk result (λ now. now ≡ spec.after inputs event) }
{
    let now = changed(alloc, inputs, event)?;
    asked(alloc, now)
}

/// The inputs whose asks follow their needs.
pub fn asked(alloc: Global, inputs: Inputs) -> Result<Inputs, Memory>
    requires { AreCountable inputs }
    ensures { IfOk result (λ now. now ≡ spec.asked inputs) }
{
    let for_radios = radio_needs(alloc, inputs.conf.radios.as_slice())?;
    let dropped = radios_dropped(alloc, inputs, for_radios.as_slice())?;
    let levels = Levels::of(alloc, &dropped)?;
    let rows = dropped.conf.interfaces.as_slice();
    let for_interfaces = interface_needs(alloc, &levels, &dropped, rows)?;
    let left = interfaces_dropped(alloc, dropped, for_interfaces.as_slice())?;
    requests_opened(alloc, left, for_interfaces, for_radios)
}

ghost use Rattle.std.specs.Prelude.{◌≡◌, None};
ghost use Rattle.ubus_state.specs.declared.change.Change.TheVariants as change;

use plane_io::Items;
use ubus_send::Outgoing;
use ubus_state::Change;
use ubus_table::LocalCall;

/// What a message comes to, before it is done.
#[derive(Drop)]
pub struct Plan {
    pub change: Change,
    pub out: Items<Outgoing>,
    pub call: Option<LocalCall>,
}

/// Frames are sent, and nothing changes.
pub fn says(out: Items<Outgoing>) -> Plan
    ensures { result ≡ record { change = change.Nothing; out = out; call = None } }
{
    Plan {
        change: Change::Nothing,
        out,
        call: None,
    }
}

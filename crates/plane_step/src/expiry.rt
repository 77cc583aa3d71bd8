//! Sessions that expire.
ghost use Rattle.std.specs.Prelude.{◌≡◌, ◌≤◌, Some, None, OnOk, OnErr};
ghost use Rattle.uci_store.specs.Store.{staged_in};
ghost use Rattle.net_plane.specs.Network.{Network};
ghost use Rattle.rpc_session.specs.Sessions.{first_expired};
ghost use Rattle.rpc_objects.specs.SessionCall.{StaysOpen};
ghost use Rattle.bus_lines.specs.Ended.{world_of};
ghost use Rattle.plane_step.specs.Expiry.{Goes, Reached};

use bus_lines::Callers;
use plane_io::Memory;
use rpc_session::Sessions;
use uci_store::Store;

/// Ends the sessions that are not live at the moment that comes, each with what it has staged. A
/// moment before the last ends none.
///
/// # Errors
///
/// `Memory` alone in place of ending the default session, which never expires.
pub(crate) fn expire(
    callers: &mut Callers,
    store: &mut Store,
    now: u64,
    next: u64,
) -> Result<(), Memory>
    ensures reached { (net : Network) → Reached (world_of now store.old callers.old net) next
        (world_of now store.new callers.new net) }
    ensures live { OnOk result
        (now ≤ next → first_expired next callers.new.sessions.sessions ≡ None) }
    ensures lacks { OnErr result
        (first_expired next callers.new.sessions.sessions ≡ Some 0) }
    ensures spare { callers.new.spare ≡ callers.old.spare }
    ensures stays { StaysOpen store.old store.new }
{
    if next < now {
        return Ok(());
    }
    end_expired(&mut callers.sessions, store, next)
}

// Ends the sessions that are not live at this moment.
fn end_expired(sessions: &mut Sessions, store: &mut Store, now: u64) -> Result<(), Memory>
    ensures goes { Goes now sessions.old (staged_in store.old)
        sessions.new (staged_in store.new) }
    ensures live { OnOk result (first_expired now sessions.new.sessions ≡ None) }
    ensures lacks { OnErr result (first_expired now sessions.new.sessions ≡ Some 0) }
    ensures stays { StaysOpen store.old store.new }
{
    while let Some(id) = sessions.next_expired(now) {
        if id == 0 {
            return Err(Memory);
        }
        let Ok(()) = sessions.destroy(id) else {
            return Err(Memory);
        };
        store.forget(id);
    }
    Ok(())
}

use crate::event::{HubError, HubEvent};
use plane_io::Failed;

/// A place to which clients connect. A client that has left is no fault: what is sent to it is
/// dropped, and `Closed` follows.
pub trait Hub {
    ghost use Rattle.std.specs.Prelude.{◌≡◌, ℕ, List, Option, OnOk, OnErr, IfOk};
    ghost use Rattle.plane_words.specs.Causes.{HasCause};
    ghost use Rattle.plane_outside.specs.declared.event.HubEvent.{HubEvent};
    ghost use Rattle.plane_outside.specs.declared.event.Sent.{Sent};
    ghost use Rattle.plane_outside.specs.Hub.{IsWhole, Gives, Sends, SendsFront, HubCause};

    /// The events that it has left, where it tells them: one for each call of `next` that succeeds,
    /// in order. `Idle` stands for none at that call, and past the end there is none.
    ghost events: { Self → Option (List HubEvent) };

    /// What was sent so far, in order, where it tells that.
    ghost sent: { Self → Option (List Sent) };

    /// A count that rises at least where a call fails, never falls, and stands still at 2^64 - 1.
    ghost faults: { Self → ℕ };

    /// The next event, or `Idle` where there is none now.
    fn next(&mut self) -> Result<HubEvent, HubError>
        ensures gives { IfOk result (λ event. Gives (events self.old) (events self.new) event) }
        ensures whole { IfOk result IsWhole }
        ensures stays { OnErr result (events self.new ≡ events self.old) }
        ensures sent { sent self.new ≡ sent self.old }
        ensures cause { HubCause (faults self.old) (faults self.new) result };

    /// Sends bytes to a client. Where that fails, a front of them was sent, or nothing.
    fn send(&mut self, client: u32, bytes: &[u8]) -> Result<(), Failed>
        ensures ok { OnOk result (Sends (sent self.old) (sent self.new) client bytes.now) }
        ensures err { OnErr result (SendsFront (sent self.old) (sent self.new) client bytes.now) }
        ensures events { events self.new ≡ events self.old }
        ensures cause { HasCause (faults self.old) (faults self.new) result };
}

ghost use Rattle.std.specs.Prelude.{◌≡◌, ◌≤◌, [], None, OnOk, OnErr};
ghost use Rattle.net_rules.specs.declared.event.Event.TheVariants as event_of;
ghost use Rattle.net_rules.specs.Refusal as spec;
ghost use Rattle.known_inputs.specs.Steps as steps;
ghost use Rattle.net_plane.specs.Network.{moment_of, IsOf};
ghost use Rattle.net_plane.specs.Taken.{IsAfter, AnswersOrFails, FailsAt, TellsOnce};

use crate::net::{Net, are_beside};
use crate::net_error::NetError;
use crate::next::MOST_NEXT;
use kern_model::{DevEvent, DevName, Kernel};
use net_refused::device_refusal;
use net_rules::Refusal;
use std::alloc::Global;

/// What happens to a device opens a request of each interface at most, of which there are so many.
const MOST_REQUESTS: u64 = 1024;

impl Net {
    /// What happens to a device is told to the kernel. No call is made.
    ///
    /// # Errors
    ///
    /// `Known` and then `Limit` for a device that comes, `NoDevice` for another, `KernelFailed`
    /// where the kernel failed at it, and `Memory`. Then nothing changes.
    pub fn device<K: Kernel>(
        &mut self,
        alloc: Global,
        kernel: &mut K,
        event: &DevEvent,
    ) -> Result<(), NetError>
        requires told { self.old.notices ≡ [] }
        requires of { IsOf K.Kernel kernel.old self.old }
        ensures ok { OnOk result (IsAfter self.old (event_of.Device event.now) self.new) }
        ensures refused { FailsAt (moment_of self.old) event.now (K.faults kernel.old)
            (K.faults kernel.new) result }
        ensures err { OnErr result (self.new ≡ self.old) }
        ensures of { IsOf K.Kernel kernel.new self.new }
        ensures calls { K.calls kernel.new ≡ K.calls kernel.old }
        ensures asked { TellsOnce event.now (K.asked kernel.old) (K.asked kernel.new) result }
        ensures loads { self.new.loads ≡ self.old.loads }
        ensures later { K.faults kernel.old ≤ K.faults kernel.new }
    {
        match self.refusal_of(event) {
            Some(why) => Err(NetError::of(why)),
            None => self.tell(alloc, kernel, event),
        }
    }

    // Why what happens to a device is refused, if it is.
    fn refusal_of(&self, event: &DevEvent) -> Option<Refusal>
        ensures { result ≡ spec.refusal (moment_of self.now) (event_of.Device event.now) }
    {
        let kept = &self.follower;
        are_beside(kept);
        let is_link_held = kept.settling.graph.holds_link(name_of(event));
        device_refusal(&kept.inputs, &kept.states.reach, is_link_held, event)
    }

    // Tells the kernel what happens to a device, where nothing refuses it. All memory is taken
    // before.
    fn tell<K: Kernel>(
        &mut self,
        alloc: Global,
        kernel: &mut K,
        event: &DevEvent,
    ) -> Result<(), NetError>
        requires told { self.old.notices ≡ [] }
        requires of { IsOf K.Kernel kernel.old self.old }
        requires free { spec.refusal (moment_of self.old) (event_of.Device event.now) ≡ None }
        ensures ok { OnOk result (IsAfter self.old (event_of.Device event.now) self.new) }
        ensures causes { AnswersOrFails None (K.faults kernel.old) (K.faults kernel.new) result }
        ensures err { OnErr result (self.new ≡ self.old) }
        ensures of { IsOf K.Kernel kernel.new self.new }
        ensures calls { K.calls kernel.new ≡ K.calls kernel.old }
        ensures asked { TellsOnce event.now (K.asked kernel.old) (K.asked kernel.new) result }
        ensures loads { self.new.loads ≡ self.old.loads }
        ensures later { K.faults kernel.old ≤ K.faults kernel.new }
    {
        if self.follower.inputs.next() > MOST_NEXT - MOST_REQUESTS {
            return Err(NetError::Memory);
        }
        let Ok(id) = self.follower.await_event(alloc, event) else {
            return Err(NetError::Memory);
        };
        let Ok(()) = kernel.environment(event) else {
            self.follower.desist(event, id);
            return Err(NetError::KernelFailed);
        };
        self.follower.happen(event, id);
        Ok(())
    }
}

fn name_of(event: &DevEvent) -> &DevName
    ensures { result.now ≡ steps.name_of event.now }
{
    match event {
        DevEvent::Add { name, .. } => name,
        DevEvent::Remove { name } => name,
        DevEvent::Carrier { name, .. } => name,
    }
}

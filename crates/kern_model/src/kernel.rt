use crate::object::{Call, DevEvent};
use plane_io::Failed;

/// What was asked of a kernel, a call or an event, and whether it was done.
#[derive(Clone, Copy)]
pub enum Asked {
    Call { call: Call, done: bool },
    Event { event: DevEvent, done: bool },
}

/// A kernel whose network devices are set up by calls.
pub trait Kernel {
    ghost use Rattle.std.specs.Prelude.{◌≡◌, ℕ, [], ◌∷◌, List, Option, is_ok, OnOk, OnErr};
    ghost use Rattle.plane_words.specs.Causes.{HasCause};
    ghost use Rattle.plane_words.specs.Growth.{Grows};
    ghost use Rattle.kern_model.specs.declared.object.Call.{Call};
    ghost use Rattle.kern_model.specs.declared.kernel.Asked.{Asked};
    ghost use Rattle.kern_model.specs.ObjectOrder.{Objects};
    ghost use Rattle.kern_model.specs.Kernel.{Devices, after_call, MayHappen, after_event};
    ghost use Rattle.kern_model.specs.Kernel.{objects_after_event, Records};
    ghost use Rattle.kern_model.specs.Admission.{Admits};

    /// The objects that it holds.
    ghost objects: { Self → Objects };

    /// The present devices.
    ghost devices: { Self → Devices };

    /// The calls of `apply` that it did, in order, where it keeps them.
    ghost calls: { Self → Option (List Call) };

    /// All that was asked of it, calls and events in order, each with whether it was done, where it
    /// keeps them. What it did of the calls is `calls`. It may cease to keep them, but leaves out
    /// none.
    ghost asked: { Self → Option (List Asked) };

    /// A count that rises at least where a call fails, never falls, and stands still at 2^64 - 1.
    ghost faults: { Self → ℕ };

    /// Makes a call that the kernel admits. Where that fails, nothing changes.
    fn apply(&mut self, call: &Call) -> Result<(), Failed>
        requires { Admits (devices self.old) (objects self.old) call.now }
        ensures did { OnOk result (objects self.new ≡ after_call (objects self.old) call.now) }
        ensures logged { OnOk result (Grows (calls self.old) (calls self.new) (call.now ∷ [])) }
        ensures err { OnErr result ((objects self.new ≡ objects self.old)
            × (calls self.new ≡ calls self.old)) }
        ensures asked { Records (asked self.old) (asked self.new)
            (Asked.Call call.now (is_ok result) ∷ []) }
        ensures devices { devices self.new ≡ devices self.old }
        ensures cause { HasCause (faults self.old) (faults self.new) result };

    /// Tells the kernel what happened to a device: what stands on one that leaves goes with it.
    /// Where that fails, nothing changes.
    fn environment(&mut self, event: &DevEvent) -> Result<(), Failed>
        requires { MayHappen (devices self.old) (objects self.old) event.now }
        ensures did { OnOk result (devices self.new ≡ after_event (devices self.old) event.now) }
        ensures stayed { OnOk result (objects self.new
            ≡ objects_after_event (objects self.old) event.now) }
        ensures err { OnErr result ((devices self.new ≡ devices self.old)
            × (objects self.new ≡ objects self.old)) }
        ensures calls { calls self.new ≡ calls self.old }
        ensures asked { Records (asked self.old) (asked self.new)
            (Asked.Event event.now (is_ok result) ∷ []) }
        ensures cause { HasCause (faults self.old) (faults self.new) result };
}

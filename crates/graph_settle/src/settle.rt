ghost use Rattle.std.specs.Prelude.{◌≡◌, ◌≤◌, OnOk, OnErr, false};
ghost use Rattle.plane_words.specs.Causes.{HasCause};
ghost use Rattle.plane_words.specs.Growth.{Grows, GrowsByFront};
ghost use Rattle.net_settle.specs.Outside.{outside_of};
ghost use Rattle.net_settle.specs.Settle.{SettleEnds, whole_line};
ghost use Rattle.graph_settle.specs.SettlingState.{held_of, wanted_of, calls_of, IsReady, IsAlike};
ghost use Rattle.graph_settle.specs.SettlingState.{HoldsAs};

use crate::next::are_gifts;
use crate::settling::GraphSettling;
use kern_model::{Call, Kernel, print_call};
use net_settle::SettleError;
use plane_io::{Failed, Sink};

impl GraphSettling {
    /// Makes the calls that are left, in their order, and writes the line of each after it. It
    /// takes no memory. Where all are made, what is wanted is held, and no name may fall any more.
    ///
    /// # Errors
    ///
    /// `KernelFailed` at the first call that the kernel fails at: the calls before it were made,
    /// and it is still to be made. `WriteFailed` at the first line that is not written, or not
    /// wholly: its call was made.
    pub fn settle<K: Kernel, O: Sink>(
        &mut self,
        kernel: &mut K,
        out: &mut O,
    ) -> Result<(), SettleError>
        requires of { HoldsAs K.Kernel kernel.old self.old }
        requires ready { IsReady self.old }
        ensures ends { SettleEnds (calls_of self.old) (calls_of self.new)
            (outside_of O.Sink K.Kernel out.old kernel.old)
            (outside_of O.Sink K.Kernel out.new kernel.new) result }
        ensures reached { OnOk result (held_of self.new ≡ wanted_of self.old) }
        ensures of { HoldsAs K.Kernel kernel.new self.new }
        ensures stays { IsAlike self.old self.new }
        ensures done { OnOk result (self.new.may_lose_link ≡ false) }
        ensures stopped { OnErr result (self.new.may_lose_link ≡ self.old.may_lose_link) }
        ensures ready { IsReady self.new }
        ensures later { (K.faults kernel.old ≤ K.faults kernel.new)
            × (O.faults out.old ≤ O.faults out.new) }
    {
        self.prepare();
        while let Some(call) = self.next_call() {
            let Ok(()) = kernel.apply(&call) else {
                return Err(SettleError::KernelFailed);
            };
            self.did(&call);
            let Ok(()) = write_line(&call, out) else {
                return Err(SettleError::WriteFailed);
            };
        }
        are_gifts(&self.gifts);
        self.may_lose_link = false;
        Ok(())
    }
}

/// The line of a call, with its newline.
fn write_line<O: Sink>(call: &Call, out: &mut O) -> Result<(), Failed>
    ensures written { OnOk result (Grows (O.held out.old) (O.held out.new) (whole_line call.now)) }
    ensures in_part { OnErr result
        (GrowsByFront (O.held out.old) (O.held out.new) (whole_line call.now)) }
    ensures cause { HasCause (O.faults out.old) (O.faults out.new) result }
{
    let mut buffer = [0u8; 256];
    let size = print_call(call, &mut buffer);
    buffer[size] = b'\n';
    out.write(&buffer[..size + 1])
}

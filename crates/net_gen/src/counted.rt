ghost use Rattle.std.specs.Prelude.{◌≡◌, ◌^◌, ◌-◌, [], Some, OnOk};
ghost use Rattle.net_rules.specs.Moment.{want_of};
ghost use Rattle.net_plane.specs.Network.{IsOf, moment_of};
ghost use Rattle.step_net.specs.Finished.{HoldsOrFailed};
ghost use Rattle.net_gen.specs.Counted.{CountEnds, kernel_alone};

use kern_model::Kernel;
use net_plane::{Net, NetError};
use plane_io::{Failed, Memory, Sink};

/// A sink that takes nothing, and so stops a settling behind each of its calls.
#[derive(Drop)]
struct NoLines;

impl Sink for NoLines {
    ghost held = { λ _. Some [] };

    ghost faults = { λ _. 2 ^ 64 - 1 };

    fn write(&mut self, _bytes: &[u8]) -> Result<(), Failed> {
        Err(Failed)
    }
}

/// Settles call by call, and answers how many calls were made. A call that fails ends it. It takes
/// no memory, but where more calls are due than can be counted it stops as if memory were lacking.
pub(crate) fn settle_and_count<K: Kernel>(net: &mut Net, kernel: &mut K) -> Result<u64, Memory>
    requires { IsOf K.Kernel kernel.old net.old }
    ensures ends { CountEnds (moment_of net.old) (moment_of net.new)
        (kernel_alone K.Kernel kernel.old) (kernel_alone K.Kernel kernel.new) result }
    ensures of { IsOf K.Kernel kernel.new net.new }
    ensures holds { OnOk result (HoldsOrFailed (K.objects kernel.new) (want_of net.new.inputs)
        (K.faults kernel.old) (K.faults kernel.new)) }
    ensures notices { net.new.notices ≡ net.old.notices }
{
    let mut lines = NoLines;
    for count in 0..u64::MAX {
        let Err(error) = net.settle(kernel, &mut lines) else {
            return Ok(count);
        };
        let NetError::WriteFailed = error else {
            return Ok(count);
        };
    }
    Err(Memory)
}

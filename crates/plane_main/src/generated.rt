//! A run of `gen`.
ghost use Rattle.net_settle.specs.Outside.{outside_of};
ghost use Rattle.net_start.specs.BringUp.{IsBare};
ghost use Rattle.plane_main.specs.Generated.{GenEnds};

use crate::ending::Ending;
use kern_model::Kernel;
use net_gen::{GenError, generate};
use plane_io::Sink;
use std::alloc::Global;

/// Plays the network of so many bridges through on a kernel that has nothing, and prints the
/// numbers of its calls.
pub fn play<O: Sink, K: Kernel>(alloc: Global, count: u32, out: &mut O, kernel: &mut K) -> Ending
    requires bare { IsBare K.Kernel kernel.old }
    ensures cause { GenEnds count (outside_of O.Sink K.Kernel out.old kernel.old)
        (outside_of O.Sink K.Kernel out.new kernel.new) result }
{
    match generate(alloc, count, kernel, out) {
        Ok(()) => Ending::Done,
        Err(GenError::KernelFailed { due }) => Ending::KernelFailed { left: due },
        Err(GenError::WriteFailed) => Ending::WriteFailed,
        Err(GenError::Memory) => Ending::OutOfMemory,
    }
}

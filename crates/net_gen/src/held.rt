ghost use Rattle.std.specs.Prelude.{◌≡◌, [], IfOk};
ghost use Rattle.std.specs.FinSet as set;
ghost use Rattle.kern_model.specs.ObjectOrder.{set_of};

use crate::packages::no_package;
use net_plane::Net;
use plane_io::Memory;
use std::alloc::Global;

/// The number of objects that are held. Where no rows are loaded nothing is wanted, and so all of
/// them are due.
pub(crate) fn count_held(alloc: Global, mut net: Net) -> Result<usize, Memory>
    requires told { net.notices ≡ [] }
    ensures { IfOk result (λ count. count ≡ set.len (set_of net.held)) }
{
    let nothing = no_package(alloc);
    let Ok(()) = net.load(alloc, &nothing, &nothing) else {
        return Err(Memory);
    };
    Ok(net.due())
}

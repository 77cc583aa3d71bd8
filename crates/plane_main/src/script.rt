//! The access list of a run of a script.
ghost use Rattle.ubus_acl.specs.Form.{acl_of};
ghost use Rattle.plane_main.specs.Script.{ReadsAcl};

use crate::ending::Ending;
use std::alloc::Global;
use ubus_acl::{Acl, AclError};

/// Reads the access list of a run, or tells how the run ends without it.
pub(crate) fn read_acl(alloc: Global, text: &[u8]) -> Result<Acl, Ending>
    ensures { ReadsAcl (acl_of text.now) result }
{
    match Acl::read(alloc, text) {
        Ok(acl) => Ok(acl),
        Err(AclError::Memory) => Err(Ending::OutOfMemory),
        Err(_) => Err(Ending::Usage),
    }
}

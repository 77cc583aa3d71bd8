ghost use Rattle.std.specs.Prelude.{◌≡◌, [], IfOk, OnOk};
ghost use Rattle.step_net.specs.Acted as spec;

use net_plane::Net;
use plane_io::Memory;
use request_lines::append_request_line;
use std::alloc::Global;

/// The lines of what is to be told of requests. All of it is handed out.
///
/// # Errors
///
/// Want of memory.
pub fn lines_of_requests(alloc: Global, net: &mut Net) -> Result<Vec<u8>, Memory>
    ensures lines { IfOk result (λ lines.
        lines.items ≡ spec.lines_of_requests net.old.inputs.conf net.old.notices) }
    ensures silent { OnOk result (net.new.notices ≡ []) }
    ensures stays { (net.new.inputs ≡ net.old.inputs) × (net.new.held ≡ net.old.held) }
{
    let mut lines = Vec::new(alloc);
    while let Some(notice) = net.notice() {
        append_request_line(alloc, net.conf(), &notice, &mut lines)?;
    }
    Ok(lines)
}

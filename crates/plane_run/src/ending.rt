ghost use Rattle.std.specs.Prelude.{◌≡◌};
ghost use Rattle.plane_run.specs.Parts as spec;

use crate::run_end::RunEnd;
use plane_step::Stop;

/// How a run ends whose script was carried out: by whether every line was ok, and by how many
/// objects are due.
pub(crate) fn end_of(is_ok: bool, due: usize) -> RunEnd
    ensures { result ≡ spec.end_of is_ok due }
{
    if due > 0 {
        return RunEnd::KernelFailed { left: due };
    }
    if is_ok { RunEnd::Done } else { RunEnd::Refused }
}

/// How a run ends whose script stopped in a line.
pub(crate) fn end_of_stop(stop: Stop) -> RunEnd
    ensures { result ≡ spec.end_of_stop stop }
{
    match stop {
        Stop::WriteFailed => RunEnd::WriteFailed,
        Stop::DiskFailed => RunEnd::DiskFailed,
        Stop::Memory => RunEnd::OutOfMemory,
    }
}

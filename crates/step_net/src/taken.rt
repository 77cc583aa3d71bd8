ghost use Rattle.std.specs.Prelude.{◌≡◌};
ghost use Rattle.step_net.specs.Taken as spec;

use plane_io::Text;
use script_lines::LineError;
use std::alloc::Global;

/// What an event comes to: the lines of the requests that it brings, or why it was refused. A line
/// of a script and a bus call each make their answer of it.
#[derive(Drop)]
pub struct Taken {
    pub requests: Text,
    pub refusal: Option<LineError>,
}

impl Taken {
    /// The event was refused for this, and brings no requests.
    pub(crate) fn refused(alloc: Global, error: LineError) -> Taken
        ensures { result ≡ spec.refused_as error }
    {
        Taken {
            requests: Text::from_vec(Vec::new(alloc)),
            refusal: Some(error),
        }
    }
}

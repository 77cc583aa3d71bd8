use plane_io::Text;
use step_net::Told;

/// What is to be told of a line: the lines of sends in front of its calls, and the rest behind
/// them.
#[derive(Drop)]
pub struct Handled {
    pub sent: Text,
    pub told: Told,
}

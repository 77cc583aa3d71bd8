//! Which deltas lie under a path.
ghost use Rattle.std.specs.Prelude.{◌≡◌};
ghost use Rattle.std.specs.Option.{option_copied};
ghost use Rattle.uci_staged.specs.Under as spec;

use plane_io::Text;
use uci_delta::Delta;
use uci_tree::{Path, SectionRef};

/// Whether a path with this option leads to what the delta changes, or to its section.
fn is_in_option(option: &Option<Text>, delta: &Delta) -> bool
    ensures { result ≡ spec.is_in_option option.now delta.now.option }
{
    let Some(name) = option else {
        return true;
    };
    match &delta.option {
        Some(option) => option.as_bytes() == name.as_bytes(),
        None => false,
    }
}

/// Whether the delta changes what the path leads to, or something in it.
pub fn lies_under(path: &Path, delta: &Delta) -> bool
    ensures { result ≡ spec.lies_under path.now.section path.now.option delta.now }
{
    match &path.section {
        None => true,
        Some(SectionRef::Name(name)) => {
            delta.section.as_bytes() == name.as_bytes() && is_in_option(&path.option, delta)
        }
        Some(SectionRef::Place { .. }) => false,
    }
}

/// Whether it lies under the path that is dropped, where there is one.
pub fn is_dropped(dropped: Option<&Path>, delta: &Delta) -> bool
    ensures { result ≡ spec.is_dropped (option_copied dropped.entry) delta.now }
{
    match dropped {
        None => false,
        Some(path) => lies_under(path, delta),
    }
}

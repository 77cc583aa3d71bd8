ghost use Rattle.std.specs.Prelude.{◌≡◌, ◌++◌, codes, IfOk};
ghost use Rattle.uci_tree.specs.Anonymous as spec;

use plane_io::{Memory, Text};
use std::alloc::Global;

/// The name of the anonymous section that was added as this one of a package's sections, from 1,
/// with this type.
///
/// It is `cfg`, the ordinal in lower-case hex with at least two digits, and four hex digits of the
/// type's hash. Named sections count for the ordinal. The hash begins with 5381, and each byte
/// makes `33 * hash + byte` of it, modulo 65,536.
pub fn anonymous_name(alloc: Global, ordinal: u64, kind: &[u8]) -> Result<Text, Memory>
    ensures { IfOk result (λ name. name ≡ spec.anonymous_name ordinal kind.now) }
{
    let hash = type_hash(kind);
    let name = format!(in alloc; "cfg{ordinal:02x}{hash:04x}")?;
    Ok(Text::from_vec(name.into_bytes()))
}

fn type_hash(kind: &[u8]) -> u32
    ensures { result ≡ spec.type_hash kind.now }
{
    let mut hash = 5381;
    for byte in kind {
        hash = (33 * hash + u32::from(*byte)) % 65536;
    }
    hash
}

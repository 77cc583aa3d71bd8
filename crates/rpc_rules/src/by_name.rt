ghost use Rattle.std.specs.Prelude.{◌≡◌, IfOk};
ghost use Rattle.rpc_rules.specs.ByName as spec;

use blob_codec::Attr;
use plane_io::Memory;

/// The values in byte order of their names. Those of one name stay in their order.
pub(crate) fn by_name(attrs: Vec<Attr>) -> Result<Vec<Attr>, Memory>
    ensures { IfOk result (λ sorted. sorted.items ≡ spec.by_name attrs.items) }
{
    let mut sorted = attrs;
    sorted.sort_by(|one, other| one.name.cmp(&other.name))?;
    Ok(sorted)
}

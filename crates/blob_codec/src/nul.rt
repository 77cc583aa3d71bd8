ghost use Rattle.std.specs.Prelude.{◌≡◌};
ghost use Rattle.blob_codec.specs.Attribute.{is_terminated};

use lanes_scan::first_nul;

/// Whether a byte is zero and the first one is the last byte.
#[tactic(auto, unfolding(crate::specs::Attribute::is_terminated))]
pub(crate) fn ends_at_nul(bytes: &[u8]) -> bool
    ensures { result ≡ is_terminated bytes.now }
{
    let last = bytes.len().saturating_sub(1);
    match first_nul(bytes) {
        Some(place) => place == last,
        None => false,
    }
}

ghost use Rattle.std.specs.Prelude.{◌≡◌, ◌≤◌, IfSome};
ghost use Rattle.net_interfaces.specs.Mask as spec;

use crate::address::{Family, read_in};
use net_addr::{Addr, V4, mask_length};

/// The length whose mask a whole text is, as 24 for `255.255.255.0`.
pub fn read_mask(text: &[u8]) -> Option<u8>
    ensures value { result ≡ spec.mask_of text.now }
    ensures within { IfSome result (λ size. size ≤ 32) }
{
    match read_in(Family::V4, text) {
        Some(Addr::V4(mask)) => length_of(mask),
        Some(Addr::V6(_)) => None,
        None => None,
    }
}

fn length_of(mask: V4) -> Option<u8>
    ensures value { result ≡ spec.length_within 32 mask.0 }
    ensures within { IfSome result (λ size. size ≤ 32) }
{
    match mask_length(mask) {
        Ok(size) => Some(size),
        Err(_) => None,
    }
}

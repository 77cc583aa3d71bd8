ghost use Rattle.std.specs.Prelude.{◌≡◌, ◌≤◌, ℕ, IfErr, IfOk, Ok};
ghost use Rattle.net_addr.specs.Mask.{mask_bits, mask_octets};

use crate::address::V4;
use crate::error::AddrError;

/// The length of the prefix that an IPv4 mask stands for, as 24 for `255.255.255.0`.
///
/// # Errors
///
/// `BadMask` where the ones of the mask are not all in front.
pub fn mask_length(mask: V4) -> Result<u8, AddrError>
    ensures found { IfOk result (λ n. (n ≤ 32) × (mask.0 ≡ mask_octets n)) }
    ensures only { (n : ℕ) → n ≤ 32 → mask.0 ≡ mask_octets n → result ≡ Ok n }
    ensures refused { IfErr result (λ e. (e ≡ AddrError.BadMask)
        × ((n : ℕ) → n ≤ 32 → ¬ (mask.0 ≡ mask_octets n))) }
{
    let bits = u32::from_be_bytes(mask.0);
    let length = bits.leading_ones() as u8;
    if bits == mask_of(length) {
        Ok(length)
    } else {
        Err(AddrError::BadMask)
    }
}

fn mask_of(length: u8) -> u32
    requires { length ≤ 32 }
    ensures { result ≡ mask_bits length }
{
    let hosts = 1u64 << (32 - length);
    ((1u64 << 32) - hosts) as u32
}

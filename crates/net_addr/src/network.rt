ghost use Rattle.std.specs.Prelude.{◌≡◌, ◌+◌, ◌-◌, ◌*◌, ◌<◌, ◌≤◌, ℕ, length, slice_index};
ghost use Rattle.net_addr.specs.Network.{IsNetworkOf, without_low_bits};

use crate::address::{Addr, V4, V6};
use crate::prefix::Cidr;

/// The prefix with its host bits cleared: its address keeps as many of its first bits as the length
/// says, and the others are zero (RFC 4632, section 3.1). So `10.1.2.3/8` gives `10.0.0.0/8`.
pub fn network_of(cidr: Cidr) -> Cidr
    ensures { IsNetworkOf cidr result }
{
    let length = cidr.length;
    let addr = match cidr.addr {
        Addr::V4(v4) => {
            let mut octets = v4.0;
            clear_hosts(&mut octets, length);
            Addr::V4(V4(octets))
        }
        Addr::V6(v6) => {
            let mut octets = v6.0;
            clear_hosts(&mut octets, length);
            Addr::V6(V6(octets))
        }
    };
    Cidr { addr, length }
}

// Clears the bits after the first `kept`.
fn clear_hosts(octets: &mut [u8], kept: u8)
    requires { length octets.old ≤ 16 }
    ensures { (i : ℕ) → i < length octets.old → slice_index octets.new i
        ≡ without_low_bits (8 - (kept - 8 * i)) (slice_index octets.old i) }
{
    for i in 0..octets.len() {
        let kept_here = (kept as usize).saturating_sub(8 * i);
        octets[i] = clear_low_bits(octets[i], 8usize.saturating_sub(kept_here));
    }
}

fn clear_low_bits(octet: u8, count: usize) -> u8
    requires { count ≤ 8 }
    ensures { result ≡ without_low_bits count octet }
{
    ((octet as u16 >> count) << count) as u8
}

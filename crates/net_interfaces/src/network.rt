ghost use Rattle.std.specs.Prelude.{◌≡◌};
ghost use Rattle.net_addr.specs.Octets.{IsAddr};
ghost use Rattle.net_interfaces.specs.Network as spec;

use net_addr::{Cidr, network_of};

/// The prefix with its host bits cleared.
pub fn without_host_bits(cidr: Cidr) -> Cidr
    ensures { result ≡ spec.network cidr }
{
    let network = network_of(cidr);
    has_form(cidr);
    has_form(network);
    network
}

// The octets of an address are as many as its family has.
fn has_form(cidr: Cidr)
    ensures { IsAddr cidr.0 }
{
    let _bits = cidr.addr.bits();
}

// Laws of the definitions that the contracts cite. Each body is empty, and the contract is the law.
ghost use Rattle.std.specs.Prelude.{◌≡◌, ℕ, List, Some};
ghost use Rattle.net_addr.specs.declared.address.Addr.{Addr};
ghost use Rattle.net_addr.specs.Network.{IsNetworkOf};
ghost use Rattle.net_addr.specs.Spelling.{Spells};
ghost use Rattle.net_addr.specs.Width.{bits};
ghost use Rattle.net_interfaces.specs.declared.address.Family.{Family};
ghost use Rattle.net_interfaces.specs.Address.{addr_of, bits_of};
ghost use Rattle.net_interfaces.specs.Network.{network};
ghost use Rattle.net_interfaces.specs.Prefix.{prefix_of};
ghost use Rattle.net_interfaces.specs.PrefixSpelling.{SpellsPrefix};

/// The address of a family that a text is, is the one that it spells.
pub fn addresses_are_spelled()
    ensures found { (family : Family) (text : List ℕ) (addr : Addr) →
        addr_of family text ≡ Some addr → Spells text addr }
    ensures family { (family : Family) (text : List ℕ) (addr : Addr) →
        addr_of family text ≡ Some addr → bits addr ≡ bits_of family }
    ensures only { (family : Family) (text : List ℕ) (addr : Addr) →
        Spells text addr → bits addr ≡ bits_of family → addr_of family text ≡ Some addr }
{}

/// The prefix of a family that a text is, is the one that it spells with its length, or the address
/// that it spells alone.
pub fn prefixes_are_spelled()
    ensures found { (family : Family) (alone : ℕ) (text : List ℕ) (cidr : Addr × ℕ) →
        prefix_of family alone text ≡ Some cidr → SpellsPrefix alone text cidr }
    ensures family { (family : Family) (alone : ℕ) (text : List ℕ) (cidr : Addr × ℕ) →
        prefix_of family alone text ≡ Some cidr → bits cidr.0 ≡ bits_of family }
    ensures only { (family : Family) (alone : ℕ) (text : List ℕ) (cidr : Addr × ℕ) →
        SpellsPrefix alone text cidr → bits cidr.0 ≡ bits_of family →
        prefix_of family alone text ≡ Some cidr }
{}

/// A prefix without its host bits is the network of the prefix.
pub fn host_bits_are_cleared()
    ensures { (cidr : Addr × ℕ) → IsNetworkOf cidr (network cidr) }
{}

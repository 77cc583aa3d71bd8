// Laws of the definitions that the contracts cite. Each body is empty, and the contract is the law.
ghost use Rattle.std.specs.Prelude.{◌≡◌, ◌≤◌, ℕ, All, List, length};
ghost use Rattle.std.specs.Net.Text.{longest_zero_run};
ghost use Rattle.net_addr.specs.Octets.{IsAddr, IsV4};
ghost use Rattle.net_addr.specs.Alphabet.{IsCidrByte, IsV4Byte};
ghost use Rattle.net_addr.specs.ZeroRun.{IsFirstLongestRun};
ghost use Rattle.net_addr.specs.Width.{IsCidr};
ghost use Rattle.net_addr.specs.Spelling.{Spells};
ghost use Rattle.net_addr.specs.CidrSpelling.{SpellsCidr};
ghost use Rattle.net_addr.specs.Network.{IsNetworkOf};
ghost use Rattle.net_addr.specs.Printed.{addr_text, cidr_text};
ghost use Rattle.net_addr.specs.declared.address.Addr.{Addr};

/// A text stands for one address at most.
pub fn one_address()
    ensures { (text : List ℕ) (a b : Addr) → Spells text a → Spells text b → a ≡ b }
{}

/// The printed text of an address is one that is read as this address.
pub fn printed_reads_back()
    ensures { (a : Addr) → IsAddr a → Spells (addr_text a) a }
{}

/// Two prefixes that are printed alike are equal.
pub fn distinct_texts()
    ensures { (a b : Addr × ℕ) → IsCidr a → IsCidr b → cidr_text a ≡ cidr_text b → a ≡ b }
{}

/// A text stands for one prefix at most.
pub fn one_cidr()
    ensures { (text : List ℕ) (a b : Addr × ℕ) → SpellsCidr text a → SpellsCidr text b → a ≡ b }
{}

/// The printed text of a prefix is one that is read as this prefix.
pub fn printed_cidr_reads_back()
    ensures { (c : Addr × ℕ) → IsCidr c → SpellsCidr (cidr_text c) c }
{}

/// The text of a prefix has at most 43 bytes, and none but `0` to `9`, `a` to `f`, `.`, `:` and
/// `/`.
pub fn short_plain_texts()
    ensures plain { (c : Addr × ℕ) → IsCidr c → All IsCidrByte (cidr_text c) }
    ensures short { (c : Addr × ℕ) → IsCidr c → length (cidr_text c) ≤ 43 }
{}

/// The text of an IPv4 prefix has at most 18 bytes, and none but `0` to `9`, `.` and `/`.
pub fn short_plain_ipv4_texts()
    ensures plain { (c : Addr × ℕ) → IsV4 c.0 → IsCidr c → All IsV4Byte (cidr_text c) }
    ensures short { (c : Addr × ℕ) → IsV4 c.0 → IsCidr c → length (cidr_text c) ≤ 18 }
{}

/// The run of groups that is printed as `::`, where it has two groups or more, is the first longest
/// run of zero groups (RFC 5952, section 4.2).
pub fn first_longest_run()
    ensures { (groups : List ℕ) → IsFirstLongestRun groups (longest_zero_run groups) }
{}

/// A prefix has one network.
pub fn one_network()
    ensures { (c m n : Addr × ℕ) → IsAddr m.0 → IsAddr n.0
        → IsNetworkOf c m → IsNetworkOf c n → m ≡ n }
{}

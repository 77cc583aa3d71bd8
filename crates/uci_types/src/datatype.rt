use plane_io::Text;
use sqlite_items::{Boxed, Items};

/// A datatype that has a name and no arguments.
#[derive(Clone, Copy)]
pub enum Kind {
    /// `string`: any text.
    AnyText,
    /// `bool`: `1`, `on`, `true`, `yes`, `enabled`, `0`, `off`, `false`, `no` or `disabled`.
    Bool,
    /// `integer`: 1 to 38 decimal digits, perhaps after a `-`.
    Integer,
    /// `uinteger`: 1 to 38 decimal digits.
    Uinteger,
    /// `port`: a `uinteger` up to 65535.
    Port,
    /// `ipaddr`: an address of either family.
    IpAddr,
    /// `ip4addr`: an IPv4 address.
    Ip4Addr,
    /// `ip6addr`: an IPv6 address.
    Ip6Addr,
    /// `cidr4`: an IPv4 address, `/` and the length of a prefix.
    Cidr4,
    /// `cidr6`: an IPv6 address, `/` and the length of a prefix.
    Cidr6,
    /// `macaddr`: six pairs of hexadecimal digits with `:` between.
    MacAddr,
    /// `uciname`: the name of a section.
    UciName,
}

/// Which values an option may have.
#[derive(Drop)]
#[cycle(datatype)]
pub enum Datatype {
    /// The values of a name.
    Plain(Kind),
    /// This text alone.
    Literal(Text),
    /// The values that are in one of these at least.
    Or(Items<Datatype>),
    /// The values that are in each of these.
    And(Items<Datatype>),
    /// The values that are not in it.
    Not(Boxed<Datatype>),
    /// The values whose words, which are what stands between spaces, are all in it.
    Items(Boxed<Datatype>),
    /// The integers from `low` to `high`.
    Range { low: i128, high: i128 },
    /// The values of `low` to `high` bytes.
    Length { low: u64, high: u64 },
}

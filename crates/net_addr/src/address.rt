ghost use Rattle.std.specs.Prelude.{◌≡◌};
ghost use Rattle.net_addr.specs.Octets.{AreOctets, IsAddr};
ghost use Rattle.net_addr.specs.Width.{bits};

/// An IPv4 address: four octets, the most significant first.
#[derive(Clone, Copy, PartialEq, Eq, Hash)]
pub struct V4(pub [u8; 4]);

/// An IPv6 address: sixteen octets, the most significant first.
#[derive(Clone, Copy, PartialEq, Eq, Hash)]
pub struct V6(pub [u8; 16]);

/// An address of either family. Every IPv4 address orders before every IPv6 address.
#[derive(Clone, Copy, PartialEq, Eq, Hash)]
pub enum Addr {
    /// An IPv4 address.
    V4(V4),
    /// An IPv6 address.
    V6(V6),
}

impl V4 {
    /// The four octets, the most significant first.
    pub fn octets(self) -> [u8; 4]
        ensures value { result ≡ self.0 }
        ensures whole { AreOctets 4 self.0 }
    {
        self.0
    }
}

impl V6 {
    /// The sixteen octets, the most significant first.
    pub fn octets(self) -> [u8; 16]
        ensures value { result ≡ self.0 }
        ensures whole { AreOctets 16 self.0 }
    {
        self.0
    }
}

impl Addr {
    /// How many bits an address of this family has: 32 or 128.
    pub fn bits(&self) -> u8
        ensures value { result ≡ bits self.now }
        ensures whole { IsAddr self.now }
    {
        match self {
            Addr::V4(v4) => 8 * v4.octets().len() as u8,
            Addr::V6(v6) => 8 * v6.octets().len() as u8,
        }
    }
}

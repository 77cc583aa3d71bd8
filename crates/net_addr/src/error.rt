ghost use Rattle.std.specs.Prelude.{◌≡◌};
ghost use Rattle.net_addr.specs.ErrorNumber.{error_number};

use thiserror::Error;

/// Why a text or a mask has no value.
#[derive(Clone, Copy, Debug, Error)]
pub enum AddrError {
    /// The text is not an address.
    #[error("not an address")]
    BadAddress,
    /// The ones of the mask are not all in front.
    #[error("not a network mask")]
    BadMask,
    /// The prefix length is absent, is no decimal number or is longer than the address.
    #[error("not a prefix length")]
    BadLength,
}

impl AddrError {
    /// The number that stands for the error in the program's output: 80, 81 or 82.
    pub fn number(&self) -> u8
        ensures { result ≡ error_number self.now }
    {
        match self {
            AddrError::BadAddress => 80,
            AddrError::BadMask => 81,
            AddrError::BadLength => 82,
        }
    }
}

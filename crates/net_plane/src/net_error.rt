ghost use Rattle.std.specs.Prelude.{◌≡◌};
ghost use Rattle.net_plane.specs.NetError.{error_of, number_of};
ghost use Rattle.net_plane.specs.declared.net_error.NetError.TheVariants.{Memory as NoMemory};

use net_rules::Refusal;
use plane_io::Memory;
use thiserror::Error;

/// Why a call of the plane is refused.
#[derive(Clone, Copy, Debug, Error)]
pub enum NetError {
    /// No interface has that name.
    #[error("no interface")]
    NoInterface,
    /// The number is not that of the open request, which is `current`, and 0 where there is none.
    #[error("stale {given} {current}")]
    Stale { given: u64, current: u64 },
    /// No device of that name is present.
    #[error("no device")]
    NoDevice,
    /// The kernel failed.
    #[error("kernel")]
    KernelFailed,
    /// The name of a device that comes is taken.
    #[error("known")]
    Known,
    /// An answer of a radio has another number of ports than its request has rows.
    #[error("wrong ports {wanted}")]
    WrongPorts { wanted: u64 },
    /// A list is longer than this number allows.
    #[error("limit {number}")]
    Limit { number: u64 },
    /// No radio has that name.
    #[error("no radio")]
    NoRadio,
    /// The line of a call was not written, or not wholly.
    #[error("write failed")]
    WriteFailed,
    /// There was not enough memory.
    #[error("memory")]
    Memory,
}

impl NetError {
    /// The refusal of an event, as it is told.
    pub fn of(refusal: Refusal) -> NetError
        ensures { result ≡ error_of refusal }
    {
        match refusal {
            Refusal::NoInterface => NetError::NoInterface,
            Refusal::NoRadio => NetError::NoRadio,
            Refusal::Stale { given, current } => NetError::Stale { given, current },
            Refusal::NoDevice => NetError::NoDevice,
            Refusal::Known => NetError::Known,
            Refusal::WrongPorts { wanted } => NetError::WrongPorts { wanted },
            Refusal::Limit { number } => NetError::Limit { number },
        }
    }

    /// The number of the kind of error: 90 to 96 and 98, 2 for `WriteFailed`, 8 for `Memory`.
    pub fn number(&self) -> u8
        ensures { result ≡ number_of self.now }
    {
        match self {
            NetError::NoInterface => 90,
            NetError::Stale { .. } => 91,
            NetError::NoDevice => 92,
            NetError::KernelFailed => 93,
            NetError::Known => 94,
            NetError::WrongPorts { .. } => 95,
            NetError::Limit { .. } => 96,
            NetError::NoRadio => 98,
            NetError::WriteFailed => 2,
            NetError::Memory => 8,
        }
    }
}

impl From<Memory> for NetError {
    ghost from_gives = { λ _ e. e ≡ NoMemory };

    fn from(_error: Memory) -> NetError {
        NetError::Memory
    }
}

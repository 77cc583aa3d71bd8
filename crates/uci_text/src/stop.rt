use plane_io::Memory;
use std::alloc::{AllocError, AllocFailed};

/// Why a word was not read.
#[derive(Clone, Copy)]
pub enum Stop {
    /// A quote is not closed; so many bytes are left from it on.
    Quote { left: usize },
    /// A backslash outside quotes is the last byte.
    Backslash,
    /// There was not enough memory.
    Memory,
}

impl From<Memory> for Stop {
    ghost use Rattle.std.specs.Prelude.{◌≡◌};
    ghost use Rattle.uci_text.specs.declared.stop.Stop.TheVariants.{Memory as NoMemory};

    ghost from_gives = { λ _ e. e ≡ NoMemory };

    fn from(_error: Memory) -> Stop {
        Stop::Memory
    }
}

impl From<AllocError> for Stop {
    ghost use Rattle.std.specs.Prelude.{◌≡◌};
    ghost use Rattle.uci_text.specs.declared.stop.Stop.TheVariants.{Memory as NoMemory};

    ghost from_gives = { λ _ e. e ≡ NoMemory };

    fn from(_error: AllocError) -> Stop {
        Stop::Memory
    }
}

impl<T: Drop> From<AllocFailed<T>> for Stop {
    ghost use Rattle.std.specs.Prelude.{◌≡◌};
    ghost use Rattle.uci_text.specs.declared.stop.Stop.TheVariants.{Memory as NoMemory};

    ghost from_gives = { λ _ e. e ≡ NoMemory };

    fn from(_error: AllocFailed<T>) -> Stop {
        Stop::Memory
    }
}

ghost use Rattle.std.specs.Prelude.{◌≡◌};
ghost use Rattle.uci_tool.specs.Answers as spec;
ghost use Rattle.uci_tool.specs.declared.stop.Stop.TheVariants.{Memory as NoMemory};

use plane_io::Memory;
use snap_disk::SnapError;
use std::alloc::{AllocError, AllocFailed};
use uci_cli::Refusal;
use uci_delta::DeltaError;
use uci_store::StoreError;
use uci_text::TextError;
use uci_tree::TreeError;

/// Why a command is not done.
#[derive(Clone, Copy)]
pub enum Stop {
    /// It is refused.
    Refused(Refusal),
    /// A disk failed.
    DiskFailed,
    /// There was not enough memory.
    Memory,
}

/// What stops a command that the store has refused.
pub fn stop_of(error: StoreError) -> Stop
    ensures { result ≡ spec.stop_of error }
{
    match error {
        StoreError::Snap(error) => stop_of_snap(error),
        StoreError::NoPackage => Stop::Refused(Refusal::NoPackage),
        StoreError::Parse(error) => stop_of_tree(error),
        StoreError::Delta(error) => stop_of_delta(error),
        StoreError::TooLarge { .. } => Stop::Refused(Refusal::TooLarge),
        StoreError::NotHolder { .. } | StoreError::NothingStaged => {
            Stop::Refused(Refusal::Invalid)
        }
        StoreError::Memory => Stop::Memory,
    }
}

fn stop_of_snap(error: SnapError) -> Stop
    ensures { result ≡ spec.stop_of_snap error }
{
    match error {
        SnapError::Waiting { .. } => Stop::Refused(Refusal::Waiting),
        SnapError::Memory => Stop::Memory,
        _ => Stop::DiskFailed,
    }
}

/// What stops a command of which a text is no package.
pub fn stop_of_tree(error: TreeError) -> Stop
    ensures { result ≡ spec.stop_of_tree error }
{
    match error.fault() {
        Some(fault) => Stop::Refused(Refusal::Parse { fault }),
        None => Stop::Memory,
    }
}

/// What stops a command of which a text has no lines or no commands.
pub fn stop_of_text(error: TextError) -> Stop
    ensures { result ≡ spec.stop_of_text error }
{
    stop_of_tree(TreeError::Text(error))
}

fn stop_of_delta(error: DeltaError) -> Stop
    ensures { result ≡ spec.stop_of_delta error }
{
    match error {
        DeltaError::NotFound => Stop::Refused(Refusal::NotFound),
        DeltaError::Invalid => Stop::Refused(Refusal::Invalid),
        DeltaError::Duplicate => Stop::Refused(Refusal::Duplicate),
        DeltaError::Memory => Stop::Memory,
    }
}

impl From<Memory> for Stop {
    ghost from_gives = { λ _ e. e ≡ NoMemory };

    fn from(_error: Memory) -> Stop {
        Stop::Memory
    }
}

impl From<AllocError> for Stop {
    ghost from_gives = { λ _ e. e ≡ NoMemory };

    fn from(_error: AllocError) -> Stop {
        Stop::Memory
    }
}

impl<T: Drop> From<AllocFailed<T>> for Stop {
    ghost from_gives = { λ _ e. e ≡ NoMemory };

    fn from(_error: AllocFailed<T>) -> Stop {
        Stop::Memory
    }
}

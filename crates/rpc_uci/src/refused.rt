ghost use Rattle.std.specs.Prelude.{◌≡◌};
ghost use Rattle.rpc_uci.specs.Refused.{store_told, snap_told};

use rpc_rules::RpcError;
use snap_disk::SnapError;
use uci_store::StoreError;

/// An argument is missing or of another form, or a file does not read.
pub(crate) const BAD_ARGUMENT: u32 = 2;

/// There is no such method.
pub(crate) const NO_METHOD: u32 = 3;

/// What is named is not there.
pub(crate) const NOT_FOUND: u32 = 4;

/// Nothing is staged, or nothing waits.
const NO_DATA: u32 = 5;

/// A package is too large for its file.
const UNKNOWN_ERROR: u32 = 9;

/// How a refusal of the store is told.
pub(crate) fn refused(error: StoreError) -> RpcError
    ensures { result ≡ store_told error }
{
    match error {
        StoreError::Snap(error) => snap_refused(error),
        StoreError::NoPackage => RpcError::Status(NOT_FOUND),
        StoreError::Parse(_) => RpcError::Status(BAD_ARGUMENT),
        StoreError::Delta(error) => RpcError::from(error),
        StoreError::TooLarge { .. } => RpcError::Status(UNKNOWN_ERROR),
        StoreError::NotHolder { .. } | StoreError::NothingStaged => RpcError::Status(NO_DATA),
        StoreError::Memory => RpcError::Memory,
    }
}

fn snap_refused(error: SnapError) -> RpcError
    ensures { result ≡ snap_told error }
{
    match error {
        SnapError::NothingWaits => RpcError::Status(NO_DATA),
        SnapError::Memory => RpcError::Memory,
        SnapError::DiskFailed | SnapError::Reopen | SnapError::Waiting { .. } => {
            RpcError::DiskFailed
        }
        SnapError::BadSnapshot { .. } | SnapError::Limit { .. } => RpcError::DiskFailed,
    }
}

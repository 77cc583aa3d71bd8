ghost use Rattle.std.specs.Prelude.{◌≡◌, ◌↔◌, Some, Err, IfOk};
ghost use Rattle.rpc_rules.specs.declared.rpc_error.RpcError.TheVariants as call_refusal;
ghost use Rattle.rpc_objects.specs.declared.uci_answer.CallStop.TheVariants as refusal;
ghost use Rattle.rpc_objects.specs.UciAnswer as spec;

use crate::local_answer::LocalAnswer;
use rpc_rules::RpcError;
use rpc_uci::Reply;
use std::alloc::Global;
use thiserror::Error;

/// What the object `uci` answers to a call.
#[derive(Drop)]
pub struct UciAnswer {
    pub answer: LocalAnswer,
    /// Whether the packages are to be read anew, since files were applied or rolled back.
    pub reload: bool,
}

/// Why a call has no answer.
#[derive(Clone, Copy, Debug, Error)]
pub enum CallStop {
    /// A disk failed.
    #[error("a disk failed")]
    DiskFailed,
    /// There was not enough memory.
    #[error("out of memory")]
    Memory,
}

/// What a call of the object `uci` answers that ended so.
///
/// # Errors
///
/// `DiskFailed` exactly where a disk failed in the call, and `Memory`, in the call or for its
/// answer.
pub fn answer_uci(alloc: Global, called: Result<Reply, RpcError>) -> Result<UciAnswer, CallStop>
    ensures told { IfOk result (λ answer. spec.uci_told called ≡ Some answer) }
    ensures disk { (result ≡ Err refusal.DiskFailed) ↔ (called ≡ Err call_refusal.DiskFailed) }
{
    match called {
        Ok(reply) => Ok(UciAnswer {
            answer: LocalAnswer::told(reply.payload),
            reload: reply.reload,
        }),
        Err(RpcError::Status(status)) => Ok(quiet(LocalAnswer::refused(status))),
        Err(RpcError::Denied(grant)) => match LocalAnswer::denied(alloc, &grant) {
            Ok(answer) => Ok(quiet(answer)),
            Err(_) => Err(CallStop::Memory),
        },
        Err(RpcError::DiskFailed) => Err(CallStop::DiskFailed),
        Err(RpcError::Memory) => Err(CallStop::Memory),
    }
}

/// Nothing is to be read anew.
fn quiet(answer: LocalAnswer) -> UciAnswer
    ensures { result ≡ spec.quiet answer }
{
    UciAnswer {
        answer,
        reload: false,
    }
}

ghost use Rattle.std.specs.Prelude.{◌≡◌};
ghost use Rattle.rpc_session.specs.SessionError.{number_of};
ghost use Rattle.rpc_session.specs.declared.session_error.SessionError.TheVariants as refusal;

use plane_io::Memory;
use std::alloc::{AllocError, AllocFailed};
use thiserror::Error;

/// Why a call of the sessions was refused.
#[derive(Clone, Copy, Debug, Error)]
pub enum SessionError {
    /// No session has the id, or none that is live.
    #[error("no such session")]
    NoSession,
    /// There are as many sessions as there may be.
    #[error("too many sessions")]
    Full,
    /// An argument of a method is missing, or of another form.
    #[error("a bad argument")]
    Argument,
    /// There is no method of that name.
    #[error("no such method")]
    NoMethod,
    /// The default session cannot be destroyed.
    #[error("the default session stays")]
    DefaultSession,
    /// There was not enough memory.
    #[error("out of memory")]
    Memory,
}

impl SessionError {
    /// The number of the kind of error: 70 for `NoSession`, 72 for `Full`, 73 for `Argument`, 74
    /// for `NoMethod`, 75 for `DefaultSession`, 8 for `Memory`.
    pub fn number(&self) -> u8
        ensures { result ≡ number_of self.now }
    {
        match self {
            SessionError::NoSession => 70,
            SessionError::Full => 72,
            SessionError::Argument => 73,
            SessionError::NoMethod => 74,
            SessionError::DefaultSession => 75,
            SessionError::Memory => 8,
        }
    }
}

impl From<Memory> for SessionError {
    ghost from_gives = { λ _ e. e ≡ refusal.Memory };

    fn from(_error: Memory) -> SessionError {
        SessionError::Memory
    }
}

impl From<AllocError> for SessionError {
    ghost from_gives = { λ _ e. e ≡ refusal.Memory };

    fn from(_error: AllocError) -> SessionError {
        SessionError::Memory
    }
}

impl<T: Drop> From<AllocFailed<T>> for SessionError {
    ghost from_gives = { λ _ e. e ≡ refusal.Memory };

    fn from(_error: AllocFailed<T>) -> SessionError {
        SessionError::Memory
    }
}

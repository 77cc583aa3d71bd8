ghost use Rattle.std.specs.Prelude.{◌≡◌};
ghost use Rattle.rpc_session.specs.Denied.{number_of};

use thiserror::Error;

/// Why a session may not do what is wanted.
#[derive(Clone, Copy, Debug, Error)]
pub enum Denied {
    /// No live session has the id.
    #[error("no such session")]
    NoSession,
    /// The session is live, and none of its grants permits it.
    #[error("a grant is missing")]
    Missing,
}

impl Denied {
    /// The number of the kind of refusal: 70 for `NoSession`, 71 for `Missing`.
    pub fn number(&self) -> u8
        ensures { result ≡ number_of self.now }
    {
        match self {
            Denied::NoSession => 70,
            Denied::Missing => 71,
        }
    }
}

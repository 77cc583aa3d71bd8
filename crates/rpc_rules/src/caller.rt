ghost use Rattle.std.specs.Prelude.{◌≡◌};
ghost use Rattle.rpc_rules.specs.Arguments as spec;

use blob_codec::Attr;
use rpc_session::{argument, session_named};

/// Who calls.
#[derive(Clone, Copy)]
pub enum Caller {
    /// The call names no session.
    Anyone,
    /// It names the session of this id, which may be there or not.
    Session(u128),
    /// What it names is no id of a session.
    Stranger,
}

impl Caller {
    /// Whom the arguments of a call name.
    pub fn of(args: &[Attr]) -> Caller
        ensures { result ≡ spec.caller_in args.now }
    {
        let Some(_) = argument(args, b"ubus_rpc_session") else {
            return Caller::Anyone;
        };
        match session_named(args) {
            Some(id) => Caller::Session(id),
            None => Caller::Stranger,
        }
    }

    /// The holder of the staged changes that the caller sees: 0 without a session.
    pub fn holder(self) -> u128
        ensures { result ≡ spec.holder_of self }
    {
        match self {
            Caller::Session(id) => id,
            Caller::Anyone | Caller::Stranger => 0,
        }
    }
}

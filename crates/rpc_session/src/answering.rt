ghost use Rattle.std.specs.Prelude.{◌≡◌, ◌≢◌, Err, codes};
ghost use Rattle.rpc_session.specs.Arguments as arguments;
ghost use Rattle.rpc_session.specs.Serve as spec;

use crate::arguments::{argument, scope_in, text_argument};
use crate::description::{describe, named};
use crate::method::Question;
use crate::values::{are_keys, asked_values};
use crate::{Grant, Session, SessionError};
use blob_codec::{Attr, Blob};
use sqlite_items::Items;
use std::alloc::Global;

impl Session {
    /// What is told of a live session.
    pub(crate) fn answer(
        &self,
        alloc: Global,
        question: Question,
        args: &[Attr],
        now: u64,
    ) -> Result<Items<Attr>, SessionError>
        ensures { result ≢ Err SessionError.Memory →
            result ≡ spec.told question args.now now self.now }
    {
        match question {
            Question::Listing => Ok(describe(alloc, self, now)?),
            Question::Access => self.answer_access(alloc, args),
            Question::Values => self.answer_values(alloc, args),
        }
    }

    /// Whether the session may do what the arguments want.
    fn answer_access(&self, alloc: Global, args: &[Attr]) -> Result<Items<Attr>, SessionError>
        ensures { result ≢ Err SessionError.Memory → result ≡ spec.access args.now self.now }
    {
        let Some(scope) = scope_in(args) else {
            return Err(SessionError::Argument);
        };
        let Some(object) = text_argument(args, b"object") else {
            return Err(SessionError::Argument);
        };
        let Some(function) = text_argument(args, b"function") else {
            return Err(SessionError::Argument);
        };
        let wanted = Grant::of(alloc, scope, object, function)?;
        let access = truth(self.may(&wanted));
        let mut told = Items::new(alloc);
        told.push(named(alloc, b"access", access)?)?;
        Ok(told)
    }

    /// The values that the arguments ask for.
    fn answer_values(&self, alloc: Global, args: &[Attr]) -> Result<Items<Attr>, SessionError>
        ensures { result ≢ Err SessionError.Memory →
            result ≡ spec.values_told (arguments.argument (codes "keys") args.now) self.now }
    {
        let keys = argument(args, b"keys");
        if !are_keys(keys) {
            return Err(SessionError::Argument);
        }
        let values = asked_values(alloc, keys, self.values.as_slice())?;
        let mut told = Items::new(alloc);
        told.push(named(alloc, b"values", Blob::Table(values))?)?;
        Ok(told)
    }
}

fn truth(value: bool) -> Blob
    ensures { result ≡ spec.truth value }
{
    Blob::I8(i8::from(value))
}

ghost use Rattle.std.specs.Prelude.{◌≡◌, ◌≢◌, Err, codes};
ghost use Rattle.rpc_session.specs.Arguments as arguments;
ghost use Rattle.rpc_session.specs.Sessions.{Does};
ghost use Rattle.rpc_session.specs.Serve as spec;

use crate::arguments::{argument, array_argument, array_of, scope_in, table_argument};
use crate::method::Change;
use crate::objects::{are_pairs, is_told, with_pairs};
use crate::values::{are_keys, other_values, with_values};
use crate::{Session, SessionError};
use blob_codec::Attr;
use plane_io::Items;
use std::alloc::Global;
use std::mem;

impl Session {
    /// Changes the session as the arguments say. Where it is refused, the session stays as it was.
    pub(crate) fn alter(
        &mut self,
        alloc: Global,
        change: Change,
        args: &[Attr],
    ) -> Result<(), SessionError>
        ensures done { result ≢ Err SessionError.Memory →
            Does (spec.altered change args.now self.old) result self.old self.new }
        ensures memory { result ≡ Err SessionError.Memory → self.new ≡ self.old }
        ensures id { self.new.id ≡ self.old.id }
    {
        match change {
            Change::Grant => self.grant_by(alloc, args),
            Change::Revoke => self.revoke_by(alloc, args),
            Change::Set => self.set_by(alloc, args),
            Change::Unset => self.unset_by(alloc, args),
        }
    }

    fn grant_by(&mut self, alloc: Global, args: &[Attr]) -> Result<(), SessionError>
        ensures done { result ≢ Err SessionError.Memory →
            Does (spec.grant_by args.now self.old) result self.old self.new }
        ensures memory { result ≡ Err SessionError.Memory → self.new ≡ self.old }
        ensures id { self.new.id ≡ self.old.id }
    {
        let Some(scope) = scope_in(args) else {
            return Err(SessionError::Argument);
        };
        let Some(items) = array_argument(args, b"objects") else {
            return Err(SessionError::Argument);
        };
        if !are_pairs(items) {
            return Err(SessionError::Argument);
        }
        self.grants = with_pairs(alloc, self.grants.as_slice(), scope, items)?;
        Ok(())
    }

    fn revoke_by(&mut self, alloc: Global, args: &[Attr]) -> Result<(), SessionError>
        ensures done { Does (spec.revoke_by args.now self.old) result self.old self.new }
        ensures id { self.new.id ≡ self.old.id }
    {
        let Some(scope) = scope_in(args) else {
            return Err(SessionError::Argument);
        };
        let Some(objects) = argument(args, b"objects") else {
            self.take_scope(alloc, scope);
            return Ok(());
        };
        let Some(items) = array_of(objects) else {
            return Err(SessionError::Argument);
        };
        if !are_pairs(items) {
            return Err(SessionError::Argument);
        }
        self.take_pairs(alloc, scope, items);
        Ok(())
    }

    /// Takes the grants of a scope out, without taking memory.
    fn take_scope(&mut self, alloc: Global, scope: &[u8])
        ensures { self.new ≡ spec.without_scope scope.now self.old }
    {
        let mut grants = mem::replace(&mut self.grants, Items::new(alloc)).into_vec();
        grants.retain(|grant| grant.scope.as_bytes() != scope);
        self.grants = Items::from_vec(grants);
    }

    /// Takes the grants of a scope and the pairs out, without taking memory.
    fn take_pairs(&mut self, alloc: Global, scope: &[u8], items: &[Attr])
        ensures { self.new ≡ spec.without_pairs scope.now items.now self.old }
    {
        let mut grants = mem::replace(&mut self.grants, Items::new(alloc)).into_vec();
        grants.retain(|grant| !is_told(scope, items, grant));
        self.grants = Items::from_vec(grants);
    }

    fn set_by(&mut self, alloc: Global, args: &[Attr]) -> Result<(), SessionError>
        ensures done { result ≢ Err SessionError.Memory →
            Does (spec.set_by args.now self.old) result self.old self.new }
        ensures memory { result ≡ Err SessionError.Memory → self.new ≡ self.old }
        ensures id { self.new.id ≡ self.old.id }
    {
        let Some(values) = table_argument(args, b"values") else {
            return Err(SessionError::Argument);
        };
        self.values = with_values(alloc, self.values.as_slice(), values)?;
        Ok(())
    }

    fn unset_by(&mut self, alloc: Global, args: &[Attr]) -> Result<(), SessionError>
        ensures done { result ≢ Err SessionError.Memory →
            Does (spec.unset_by args.now self.old) result self.old self.new }
        ensures memory { result ≡ Err SessionError.Memory → self.new ≡ self.old }
        ensures id { self.new.id ≡ self.old.id }
    {
        let keys = argument(args, b"keys");
        if !are_keys(keys) {
            return Err(SessionError::Argument);
        }
        self.values = other_values(alloc, keys, self.values.as_slice())?;
        Ok(())
    }
}

ghost use Rattle.std.specs.Prelude.{◌≡◌, IfOk};
ghost use Rattle.rpc_session.specs.Grant as spec;

use crate::fits;
use plane_io::{Memory, Text};
use std::alloc::Global;

/// What a session may do: call this function of this object, in a scope. The object and the
/// function are patterns.
#[derive(Debug, Drop)]
pub struct Grant {
    pub scope: Text,
    pub object: Text,
    pub function: Text,
}

impl Grant {
    /// The grant of these texts.
    pub fn of(alloc: Global, scope: &[u8], object: &[u8], function: &[u8]) -> Result<Grant, Memory>
        ensures { IfOk result (λ grant.
            grant ≡ spec.grant_of scope.now object.now function.now) }
    {
        Ok(Grant {
            scope: Text::from_bytes(alloc, scope)?,
            object: Text::from_bytes(alloc, object)?,
            function: Text::from_bytes(alloc, function)?,
        })
    }

    /// Whether the grant permits what is wanted.
    pub fn permits(&self, wanted: &Grant) -> bool
        ensures { result ≡ spec.permits self.now wanted.now }
    {
        self.scope == wanted.scope
            && fits(self.object.as_bytes(), wanted.object.as_bytes())
            && fits(self.function.as_bytes(), wanted.function.as_bytes())
    }

    /// Whether the grants have the same texts.
    pub fn same(&self, other: &Grant) -> bool
        ensures { result ≡ spec.same_grant self.now other.now }
    {
        self.scope == other.scope && self.object == other.object && self.function == other.function
    }

    /// The same grant, in memory of its own.
    pub fn copy(&self) -> Result<Grant, Memory>
        ensures { IfOk result (λ grant. grant ≡ self.now) }
    {
        Ok(Grant {
            scope: self.scope.copy()?,
            object: self.object.copy()?,
            function: self.function.copy()?,
        })
    }
}

/// Whether the grant is one of these.
pub(crate) fn holds(grants: &[Grant], grant: &Grant) -> bool
    ensures { result ≡ spec.holds grants.now grant.now }
{
    grants.iter().any(|held| held.same(grant))
}

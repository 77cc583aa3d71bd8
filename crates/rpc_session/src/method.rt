ghost use Rattle.std.specs.Prelude.{◌≡◌};
ghost use Rattle.rpc_session.specs.Method.{method_of};

/// What may be asked of a live session.
#[derive(Clone, Copy)]
pub(crate) enum Question {
    /// What the session is.
    Listing,
    /// Whether it may do something.
    Access,
    /// What its user keeps in it.
    Values,
}

/// How a session may be changed.
#[derive(Clone, Copy)]
pub(crate) enum Change {
    Grant,
    Revoke,
    Set,
    Unset,
}

/// A method of the object `session`.
#[derive(Clone, Copy)]
pub(crate) enum Method {
    Create,
    Destroy,
    Ask(Question),
    Alter(Change),
}

impl Method {
    /// The method of a name, if there is one.
    pub(crate) fn of(name: &[u8]) -> Option<Method>
        ensures { result ≡ method_of name.now }
    {
        if name == b"create".as_slice() {
            return Some(Method::Create);
        }
        if name == b"list".as_slice() {
            return Some(Method::Ask(Question::Listing));
        }
        if name == b"grant".as_slice() {
            return Some(Method::Alter(Change::Grant));
        }
        if name == b"revoke".as_slice() {
            return Some(Method::Alter(Change::Revoke));
        }
        if name == b"access".as_slice() {
            return Some(Method::Ask(Question::Access));
        }
        if name == b"set".as_slice() {
            return Some(Method::Alter(Change::Set));
        }
        if name == b"get".as_slice() {
            return Some(Method::Ask(Question::Values));
        }
        if name == b"unset".as_slice() {
            return Some(Method::Alter(Change::Unset));
        }
        if name == b"destroy".as_slice() {
            return Some(Method::Destroy);
        }
        None
    }
}

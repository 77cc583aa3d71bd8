ghost use Rattle.std.specs.Prelude.{◌≡◌};
ghost use Rattle.rpc_rules.specs.Method.{method_of};

/// What may be asked of packages.
#[derive(Clone, Copy)]
pub enum Question {
    /// Which packages there are.
    Configs,
    /// A package, a section or an option.
    Get,
    /// What is staged.
    Changes,
}

/// A method that stages changes of a package.
#[derive(Clone, Copy)]
pub enum Edit {
    Add,
    Set,
    Delete,
    Rename,
    Order,
}

/// A method of the object `uci`.
#[derive(Clone, Copy)]
pub enum Method {
    /// One that changes nothing.
    Ask(Question),
    /// One that stages changes.
    Stage(Edit),
    /// Staged changes of a package are dropped.
    Revert,
    /// Staged changes of a package are written.
    Commit,
    /// All staged changes are written, and may wait for a confirm.
    Apply,
    /// What waits stays.
    Confirm,
    /// What waits is undone.
    Rollback,
}

impl Method {
    /// The method of a name, if there is one.
    pub fn of(name: &[u8]) -> Option<Method>
        ensures { result ≡ method_of name.now }
    {
        if name == b"configs".as_slice() {
            return Some(Method::Ask(Question::Configs));
        }
        if name == b"get".as_slice() {
            return Some(Method::Ask(Question::Get));
        }
        if name == b"add".as_slice() {
            return Some(Method::Stage(Edit::Add));
        }
        if name == b"set".as_slice() {
            return Some(Method::Stage(Edit::Set));
        }
        if name == b"delete".as_slice() {
            return Some(Method::Stage(Edit::Delete));
        }
        if name == b"rename".as_slice() {
            return Some(Method::Stage(Edit::Rename));
        }
        if name == b"order".as_slice() {
            return Some(Method::Stage(Edit::Order));
        }
        if name == b"changes".as_slice() {
            return Some(Method::Ask(Question::Changes));
        }
        if name == b"revert".as_slice() {
            return Some(Method::Revert);
        }
        if name == b"commit".as_slice() {
            return Some(Method::Commit);
        }
        if name == b"apply".as_slice() {
            return Some(Method::Apply);
        }
        if name == b"confirm".as_slice() {
            return Some(Method::Confirm);
        }
        if name == b"rollback".as_slice() {
            return Some(Method::Rollback);
        }
        None
    }
}

ghost use Rattle.std.specs.Prelude.{◌≡◌};
ghost use Rattle.given_objects.specs.Gifts.{is_given};
ghost use Rattle.given_objects.specs.Changes.{is_live};
ghost use Rattle.given_objects.specs.Due.{alone};
ghost use Rattle.given_objects.specs.First.{is_take_due, is_put_due};

use kern_model::Object;

/// An address or a route, with how often it is given, whether it is held, and whether the name that
/// it is on was told to fall.
#[derive(Clone, Copy)]
pub struct Gift {
    pub object: Object,
    pub givers: u64,
    pub held: bool,
    pub loses_link: bool,
}

/// What is told of an object: how often it is given, whether it is held, and whether its name
/// loses its link.
#[derive(Clone, Copy)]
pub(crate) struct Counts {
    pub(crate) givers: u64,
    pub(crate) held: bool,
    pub(crate) loses_link: bool,
}

impl Gift {
    /// Whether someone gives it.
    pub fn is_given(&self) -> bool
        ensures { result ≡ is_given self.now }
    {
        self.givers > 0
    }

    /// Whether it is held or given.
    pub(crate) fn is_live(&self) -> bool
        ensures { result ≡ is_live self.now }
    {
        self.held || self.is_given()
    }

    /// Whether it is to be taken: it is held, and nobody gives it or its name loses its link.
    pub(crate) fn is_take_due(&self) -> bool
        ensures { result ≡ is_take_due self.now }
    {
        self.held && (!self.is_given() || self.loses_link)
    }

    /// Whether it is to be put: it is given and not held.
    pub(crate) fn is_put_due(&self) -> bool
        ensures { result ≡ is_put_due self.now }
    {
        self.is_given() && !self.held
    }

    /// 1 where it is held or given and not both, else 0.
    pub(crate) fn alone(&self) -> u64
        ensures { result ≡ alone self.now }
    {
        let is_given = self.is_given();
        if self.held {
            if is_given { 0 } else { 1 }
        } else {
            if is_given { 1 } else { 0 }
        }
    }
}

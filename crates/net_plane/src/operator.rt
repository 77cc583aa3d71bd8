ghost use Rattle.std.specs.Prelude.{◌≡◌, ◌≤◌, [], None, Some, Err, OnOk, OnErr};
ghost use Rattle.net_rules.specs.declared.event.Event.TheVariants as event_of;
ghost use Rattle.net_reach.specs.Reach.{interface_place};
ghost use Rattle.net_plane.specs.Network.{HasSameKernel, moment_of};
ghost use Rattle.net_plane.specs.Taken.{IsAfter, Refuses, Answers};
ghost use Rattle.net_plane.specs.declared.net_error.NetError.{NetError};
ghost use Rattle.net_plane.specs.declared.net_error.NetError.TheVariants as error;
ghost use Rattle.net_plane.specs.declared.next.TheConstants.{MOST_NEXT};

use crate::net::Net;
use crate::net_error::NetError;
use crate::next::MOST_NEXT;
use plane_io::Text;

impl Net {
    /// The interface is brought up, or down, by hand. It takes no memory, but numbers of requests
    /// may run out.
    ///
    /// # Errors
    ///
    /// `NoInterface`, and `Memory`. Then nothing changes.
    pub fn operator(&mut self, interface: Text, up: bool) -> Result<(), NetError>
        requires { self.old.notices ≡ [] }
        ensures ok { OnOk result (IsAfter self.old (event_of.Operator interface up) self.new) }
        ensures refused { Refuses (moment_of self.old) (event_of.Operator interface up) result }
        ensures ready { (e : NetError) → result ≡ Err e → e ≡ error.Memory
            → MOST_NEXT ≤ self.old.inputs.next }
        ensures err { OnErr result (self.new ≡ self.old) }
        ensures kernel { HasSameKernel self.old self.new }
        ensures loads { self.new.loads ≡ self.old.loads }
    {
        match self.place_of(&interface) {
            Some(place) => self.operator_state(place, interface, up),
            None => Err(NetError::NoInterface),
        }
    }

    /// The place of the first interface of a name.
    pub(crate) fn place_of(&self, interface: &Text) -> Option<usize>
        ensures { result ≡ interface_place self.now.inputs.conf interface.now }
    {
        self.follower.states.reach.interface_place(interface)
    }

    // The interface at a place is brought up, or down, by hand.
    fn operator_state(&mut self, place: usize, interface: Text, up: bool) -> Result<(), NetError>
        requires told { self.old.notices ≡ [] }
        requires place { interface_place self.old.inputs.conf interface ≡ Some place }
        ensures ok { OnOk result (IsAfter self.old (event_of.Operator interface up) self.new) }
        ensures causes { Answers None result }
        ensures ready { OnErr result (MOST_NEXT ≤ self.old.inputs.next) }
        ensures err { OnErr result (self.new ≡ self.old) }
        ensures kernel { HasSameKernel self.old self.new }
        ensures loads { self.new.loads ≡ self.old.loads }
    {
        if self.follower.inputs.next() >= MOST_NEXT {
            return Err(NetError::Memory);
        }
        self.follower.operator_state(place, interface, up);
        Ok(())
    }
}

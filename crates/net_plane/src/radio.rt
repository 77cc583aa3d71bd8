ghost use Rattle.std.specs.Prelude.{◌≡◌, [], None, OnOk, OnErr};
ghost use Rattle.net_rules.specs.declared.event.Event.TheVariants as event_of;
ghost use Rattle.net_rules.specs.Refusal as spec;
ghost use Rattle.net_plane.specs.Network.{HasSameKernel, moment_of};
ghost use Rattle.net_plane.specs.Taken.{IsAfter, Refuses, Answers};

use crate::net::Net;
use crate::net_error::NetError;
use kern_model::DevName;
use net_rebuild::{Rebuild, join_ports};
use net_refused::radio_refusal;
use net_rules::{Event, Refusal};
use plane_io::{Items, Text};
use std::alloc::Global;

impl Net {
    /// The handler of the radio answers the request of this number: a port for each of its rows,
    /// where there is one.
    ///
    /// # Errors
    ///
    /// `NoRadio`, `Stale` and `WrongPorts`, in this order, and `Memory`. Then nothing changes.
    pub fn radio(
        &mut self,
        alloc: Global,
        radio: Text,
        number: u64,
        ports: Items<Option<DevName>>,
    ) -> Result<(), NetError>
        requires { self.old.notices ≡ [] }
        ensures ok { OnOk result (IsAfter self.old (event_of.Radio radio number ports) self.new) }
        ensures refused { Refuses (moment_of self.old) (event_of.Radio radio number ports) result }
        ensures err { OnErr result (self.new ≡ self.old) }
        ensures kernel { HasSameKernel self.old self.new }
        ensures loads { self.new.loads ≡ self.old.loads }
    {
        match self.refusal_of_ports(&radio, number, &ports) {
            Some(why) => Err(NetError::of(why)),
            None => self.take_ports(alloc, radio, number, ports),
        }
    }

    // Why an answer of a radio is refused, if it is.
    fn refusal_of_ports(
        &self,
        radio: &Text,
        number: u64,
        ports: &Items<Option<DevName>>,
    ) -> Option<Refusal>
        ensures { result ≡ spec.refusal (moment_of self.now)
            (event_of.Radio radio.now number ports.now) }
    {
        let kept = &self.follower;
        radio_refusal(&kept.inputs, &kept.states.reach, radio, number, ports)
    }

    // Takes ports that nothing refuses.
    fn take_ports(
        &mut self,
        alloc: Global,
        radio: Text,
        number: u64,
        ports: Items<Option<DevName>>,
    ) -> Result<(), NetError>
        requires free { spec.refusal (moment_of self.old) (event_of.Radio radio number ports)
            ≡ None }
        ensures ok { OnOk result (IsAfter self.old (event_of.Radio radio number ports) self.new) }
        ensures causes { Answers None result }
        ensures err { OnErr result (self.new ≡ self.old) }
        ensures kernel { HasSameKernel self.old self.new }
        ensures loads { self.new.loads ≡ self.old.loads }
    {
        let event = Event::Radio {
            radio,
            number,
            ports,
        };
        let Ok(made) = Rebuild::of(alloc, &self.follower, event) else {
            return Err(NetError::Memory);
        };
        let Ok(()) = join_ports(alloc, &mut self.follower, made) else {
            return Err(NetError::Memory);
        };
        Ok(())
    }
}

ghost use Rattle.std.specs.Prelude.{◌≡◌, [], None, Some, OnOk, OnErr};
ghost use Rattle.net_rules.specs.declared.event.Event.TheVariants as event_of;
ghost use Rattle.net_rules.specs.Refusal as spec;
ghost use Rattle.net_reach.specs.Reach.{interface_place};
ghost use Rattle.net_plane.specs.Network.{HasSameKernel, moment_of};
ghost use Rattle.net_plane.specs.Taken.{IsAfter, Refuses, Answers};

use crate::net::Net;
use crate::net_error::NetError;
use net_refused::answer_refusal;
use net_rules::{Answer, Refusal};
use plane_io::Text;
use std::alloc::Global;

impl Net {
    /// The handler of the interface answers the request of this number.
    ///
    /// # Errors
    ///
    /// `Limit`, `NoInterface` and `Stale`, in this order, and `Memory`. Then nothing changes.
    pub fn answer(
        &mut self,
        alloc: Global,
        interface: Text,
        number: u64,
        answer: Answer,
    ) -> Result<(), NetError>
        requires { self.old.notices ≡ [] }
        ensures ok { OnOk result
            (IsAfter self.old (event_of.Answer interface number answer) self.new) }
        ensures refused { Refuses (moment_of self.old)
            (event_of.Answer interface number answer) result }
        ensures err { OnErr result (self.new ≡ self.old) }
        ensures kernel { HasSameKernel self.old self.new }
        ensures loads { self.new.loads ≡ self.old.loads }
    {
        match self.refusal_of_answer(&interface, number, &answer) {
            Some(why) => Err(NetError::of(why)),
            None => self.take_answer(alloc, interface, number, answer),
        }
    }

    // Why an answer is refused, if it is.
    fn refusal_of_answer(&self, interface: &Text, number: u64, answer: &Answer) -> Option<Refusal>
        ensures { result ≡ spec.refusal (moment_of self.now)
            (event_of.Answer interface.now number answer.now) }
    {
        let kept = &self.follower;
        answer_refusal(&kept.inputs, &kept.states.reach, interface, number, answer)
    }

    // Takes an answer that nothing refuses.
    fn take_answer(
        &mut self,
        alloc: Global,
        interface: Text,
        number: u64,
        answer: Answer,
    ) -> Result<(), NetError>
        requires told { self.old.notices ≡ [] }
        requires free { spec.refusal (moment_of self.old)
            (event_of.Answer interface number answer) ≡ None }
        ensures ok { OnOk result
            (IsAfter self.old (event_of.Answer interface number answer) self.new) }
        ensures causes { Answers None result }
        ensures err { OnErr result (self.new ≡ self.old) }
        ensures kernel { HasSameKernel self.old self.new }
        ensures loads { self.new.loads ≡ self.old.loads }
    {
        match self.place_of(&interface) {
            Some(place) => self.answer_at(alloc, place, interface, number, answer),
            None => Err(NetError::NoInterface),
        }
    }

    // The handler of the interface at a place answers. All memory is taken before.
    fn answer_at(
        &mut self,
        alloc: Global,
        place: usize,
        interface: Text,
        number: u64,
        answer: Answer,
    ) -> Result<(), NetError>
        requires told { self.old.notices ≡ [] }
        requires place { interface_place self.old.inputs.conf interface ≡ Some place }
        requires free { spec.refusal (moment_of self.old)
            (event_of.Answer interface number answer) ≡ None }
        ensures ok { OnOk result
            (IsAfter self.old (event_of.Answer interface number answer) self.new) }
        ensures causes { Answers None result }
        ensures err { OnErr result (self.new ≡ self.old) }
        ensures kernel { HasSameKernel self.old self.new }
        ensures loads { self.new.loads ≡ self.old.loads }
    {
        let kept = &mut self.follower;
        let Ok(()) = kept.await_answer(alloc, place, &interface, number, &answer) else {
            return Err(NetError::Memory);
        };
        kept.answer(place, &interface, number, answer);
        Ok(())
    }
}

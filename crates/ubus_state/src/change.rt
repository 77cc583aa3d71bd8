ghost use Rattle.std.specs.Prelude.{◌≡◌, OnOk, OnErr};
ghost use Rattle.ubus_table.specs.Objects.{without_object};
ghost use Rattle.ubus_state.specs.Calls.{calls_of};
ghost use Rattle.ubus_state.specs.Paths.{IsFree};
ghost use Rattle.ubus_state.specs.Change.{changed, with_calls, IsPossible};
ghost use Rattle.ubus_state.specs.State.{table_of};
ghost use Rattle.ubus_state.specs.declared.change.Change.TheVariants.{Adds, Opens};

use crate::{Bus, OpenCall, drop_registered};
use plane_io::Memory;
use ubus_table::{Object, Registration, Subscription};

/// What a message changes.
#[derive(Drop)]
pub enum Change {
    Nothing,
    Adds(Object),
    Removes(u32),
    Subscribes(Subscription),
    Unsubscribes(Subscription),
    Registers(Registration),
    Opens(OpenCall),
    OpensAll(Vec<OpenCall>),
    /// The open call at this place is over.
    Closes(usize),
}

impl Bus {
    /// Does a change. Where there is not enough memory, the bus stays.
    pub fn change(&mut self, change: Change) -> Result<(), Memory>
        requires { IsPossible (table_of self.old) change }
        ensures ok { OnOk result (table_of self.new ≡ changed (table_of self.old) change) }
        ensures err { OnErr result (table_of self.new ≡ table_of self.old) }
    {
        match change {
            Change::Nothing => Ok(()),
            Change::Adds(object) => self.add_object(object),
            Change::Removes(number) => {
                self.drop_object(number);
                Ok(())
            }
            Change::Subscribes(subscription) => self.subscriptions.push(subscription),
            Change::Unsubscribes(subscription) => {
                self.subscriptions.remove(subscription);
                Ok(())
            }
            Change::Registers(registration) => {
                self.registrations.push(registration)?;
                Ok(())
            }
            Change::Opens(call) => self.open_call(call),
            Change::OpensAll(calls) => self.open_calls(&calls),
            Change::Closes(place) => {
                self.calls.remove(place);
                Ok(())
            }
        }
    }

    fn add_object(&mut self, object: Object) -> Result<(), Memory>
        requires next { object.number ≡ (table_of self.old).next_object }
        requires free { IsFree object.path (table_of self.old).objects }
        ensures ok { OnOk result (table_of self.new ≡ changed (table_of self.old) (Adds object)) }
        ensures err { OnErr result (table_of self.new ≡ table_of self.old) }
    {
        self.objects.push(object)
    }

    fn open_call(&mut self, call: OpenCall) -> Result<(), Memory>
        ensures ok { OnOk result (table_of self.new ≡ changed (table_of self.old) (Opens call)) }
        ensures err { OnErr result (table_of self.new ≡ table_of self.old) }
    {
        self.calls.push(call)
    }

    fn open_calls(&mut self, calls: &[OpenCall]) -> Result<(), Memory>
        ensures ok { OnOk result (table_of self.new
            ≡ with_calls (table_of self.old) (calls_of calls.now)) }
        ensures err { OnErr result (table_of self.new ≡ table_of self.old) }
    {
        self.calls.push_all(calls)
    }

    /// Forgets an object, and all that hangs on it.
    fn drop_object(&mut self, number: u32)
        ensures { table_of self.new ≡ without_object (table_of self.old) number }
    {
        self.objects.remove(number);
        self.subscriptions.drop_touching(number);
        drop_registered(&mut self.registrations, number);
        self.calls.drop_on(number);
    }
}

ghost use Rattle.std.specs.Prelude.{◌≡◌, ◌<◌, ◌≤◌, ◌+◌, ◌^◌, None, length, slice_get, IfOk, IfSome};
ghost use Rattle.std.specs.Prelude.{IfNone, OnOk, OnErr, vec_len, vec_capacity};
ghost use Rattle.std.specs.Option.{option_copied};
ghost use Rattle.net_rules.specs.declared.event.Event.TheVariants as events;
ghost use Rattle.net_rules.specs.Inputs.{no_inputs, open_interface};
ghost use Rattle.net_rules.specs.After.{changed};
ghost use Rattle.known_inputs.specs.Known.{StandOnce, IsNamed, device_names};
ghost use Rattle.known_inputs.specs.Steps.{name_of, place_of, HasDeviceRoom, has_number};
ghost use Rattle.known_inputs.specs.Steps.{request_of};
ghost use Rattle.known_inputs.specs.Steps.{with_request, without_request};
ghost use Rattle.known_inputs.specs.Places.{NonePass, OnlyAt, is_request_of, answered_at};

use crate::copies::{copy_open_interfaces, copy_open_radios, copy_operator_states};
use crate::devices::change;
use kern_model::{DevEvent, DevName, Device};
use net_copies::{copy_conf, copy_items};
use net_rows::Conf;
use net_rules::{Answer, Inputs, InterfaceRequest, OpenInterface, OpenRadio, OperatorState};
use plane_io::{Items, Memory, Text};
use std::alloc::{AllocError, Global};
use std::marker::Model;

/// The inputs of a network, with room for an operator state and an open request of each interface
/// of the rows, and for as many devices as was asked for. What stands once in them always does.
#[derive(Drop)]
pub struct KnownInputs {
    conf: Conf,
    devices: Vec<(DevName, Device)>,
    operator_states: Vec<OperatorState>,
    interfaces: Vec<OpenInterface>,
    radios: Items<OpenRadio>,
    next: u64,
}

impl Model for KnownInputs {
    ghost use Rattle.known_inputs.specs.Known.{Known};

    ghost Value = { Known };

    ghost use Rattle.known_inputs.specs.Inside.{known_in, IsKept};

    ghost view = { known_in };

    ghost invariant = { IsKept };
}

impl KnownInputs {
    /// No rows and no devices. It takes no memory.
    pub fn new(alloc: Global) -> KnownInputs
        ensures { result.inputs ≡ no_inputs }
    {
        KnownInputs {
            conf: no_conf(alloc),
            devices: Vec::new(alloc),
            operator_states: Vec::new(alloc),
            interfaces: Vec::new(alloc),
            radios: Items::new(alloc),
            next: 1,
        }
    }

    /// Inputs with room. The lists are taken over.
    ///
    /// # Errors
    ///
    /// `Memory` where there is not enough of it for an operator state and a request of each
    /// interface of the rows.
    pub fn from(inputs: Inputs) -> Result<KnownInputs, Memory>
        requires { StandOnce inputs }
        ensures { IfOk result (λ known. known.inputs ≡ inputs) }
    {
        let Inputs {
            conf,
            devices,
            operator_states,
            interfaces,
            radios,
            next,
        } = inputs;
        let rows = conf.interfaces.as_slice().len();
        let mut operator_states = operator_states.into_vec();
        make_room(&mut operator_states, rows)?;
        let mut interfaces = interfaces.into_vec();
        make_room(&mut interfaces, rows)?;
        Ok(KnownInputs {
            conf,
            devices: devices.into_vec(),
            operator_states,
            interfaces,
            radios,
            next,
        })
    }

    /// Plain inputs, in memory of their own.
    ///
    /// # Errors
    ///
    /// `Memory` where there is not enough of it.
    pub fn copy(&self, alloc: Global) -> Result<Inputs, Memory>
        ensures { IfOk result (λ copy. copy ≡ self.now.inputs) }
    {
        Ok(Inputs {
            conf: copy_conf(alloc, &self.conf)?,
            devices: copy_items(alloc, &self.devices)?,
            operator_states: copy_operator_states(alloc, &self.operator_states)?,
            interfaces: copy_open_interfaces(alloc, &self.interfaces)?,
            radios: copy_open_radios(alloc, self.radios.as_slice())?,
            next: self.next,
        })
    }

    /// The rows. What stands once does.
    pub fn conf(&self) -> &Conf
        ensures rows { result.now ≡ self.now.inputs.conf }
        ensures once { StandOnce self.now.inputs }
    {
        &self.conf
    }

    /// The present devices.
    pub fn devices(&self) -> &[(DevName, Device)]
        ensures devices { result.now ≡ self.now.inputs.devices }
        ensures room { length self.now.inputs.devices ≤ self.now.most_devices }
    {
        self.devices.as_slice()
    }

    /// The last operator states.
    pub fn operator_states(&self) -> &[OperatorState]
        ensures { result.now ≡ self.now.inputs.operator_states }
    {
        self.operator_states.as_slice()
    }

    /// The open requests of interfaces, by rising number.
    pub fn interfaces(&self) -> &[OpenInterface]
        ensures { result.now ≡ self.now.inputs.interfaces }
    {
        self.interfaces.as_slice()
    }

    /// The open requests of radios, by rising number.
    pub fn radios(&self) -> &[OpenRadio]
        ensures { result.now ≡ self.now.inputs.radios }
    {
        self.radios.as_slice()
    }

    /// The number of the next request.
    pub fn next(&self) -> u64
        ensures { result ≡ self.now.inputs.next }
    {
        self.next
    }

    /// The open request of an interface that has this number.
    pub fn request(&self, number: u64) -> Option<&OpenInterface>
        ensures { option_copied result ≡ request_of self.now.inputs number }
    {
        match self.request_place(number) {
            Some(place) => request_at(&self.interfaces, place),
            None => None,
        }
    }

    /// Where the request of an interface stands that has this number.
    fn request_place(&self, number: u64) -> Option<usize>
        ensures found { IfSome result (OnlyAt (has_number number) self.now.inputs.interfaces) }
        ensures none { IfNone result (NonePass (has_number number) self.now.inputs.interfaces) }
        ensures within { IfSome result (λ place. place < length self.now.inputs.interfaces) }
    {
        match self
            .interfaces
            .binary_search_by_key(&number, |request| request.number)
        {
            Ok(place) => Some(place),
            Err(_) => None,
        }
    }

    /// Takes room for one more device.
    ///
    /// # Errors
    ///
    /// `Memory` where there is no room and not enough memory for it. Then all stays.
    pub fn reserve_device(&mut self) -> Result<(), Memory>
        ensures room { OnOk result (length self.new.inputs.devices < self.new.most_devices) }
        ensures inputs { self.new.inputs ≡ self.old.inputs }
        ensures most { self.old.most_devices ≤ self.new.most_devices }
        ensures full { OnErr result (self.old.most_devices ≤ length self.old.inputs.devices) }
        ensures err { OnErr result (self.new ≡ self.old) }
    {
        self.devices.reserve(1)?;
        Ok(())
    }

    /// A device comes, leaves, or is told of its carrier. Its place among the devices is given,
    /// where it has one; there has to be room for one that comes. It takes no memory.
    pub fn happen(&mut self, event: &DevEvent, place: Option<usize>)
        requires place { place ≡ place_of (device_names self.old.inputs) (name_of event.now) }
        requires room { HasDeviceRoom self.old event.now }
        ensures { self.new ≡ record self.old {
          inputs = changed self.old.inputs (events.Device event.now);
        } }
    {
        change(&mut self.devices, event, place);
    }

    /// An interface of the rows is brought up or down by hand. It takes no memory.
    pub fn operator_state(&mut self, interface: Text, up: bool)
        requires { IsNamed self.old.inputs.conf interface }
        ensures { self.new ≡ record self.old {
          inputs = changed self.old.inputs (events.Operator interface up);
        } }
    {
        self.operator_states.retain(|operator_state| operator_state.interface.as_bytes()
            != interface.as_bytes());
        self.operator_states
            .push_reserved(OperatorState { interface, up });
    }

    /// An answer takes the place of an earlier one to the request of an interface that has this
    /// number. Where there is no such ask, all stays. It takes no memory.
    pub fn answer(&mut self, interface: &Text, number: u64, answer: Answer)
        ensures { self.new ≡ record self.old {
          inputs = changed self.old.inputs (events.Answer interface.now number answer);
        } }
    {
        let Some(place) = self.request_place(number) else {
            return;
        };
        if is_request_of(&self.interfaces, place, interface) {
            tell(&mut self.interfaces, place, answer);
        }
    }

    /// The ask of an interface that has this number is no longer open. It takes no memory.
    pub fn close(&mut self, number: u64) -> Option<OpenInterface>
        ensures found { result ≡ request_of self.old.inputs number }
        ensures left { self.new ≡ record self.old {
          inputs = without_request self.old.inputs number;
        } }
    {
        match self.request_place(number) {
            Some(place) => Some(self.interfaces.remove(place)),
            None => None,
        }
    }

    /// An ask is opened for an interface of the rows that has none, and gets the next number. It
    /// takes no memory.
    pub fn open(&mut self, request: InterfaceRequest) -> u64
        requires new { open_interface self.old.inputs.interfaces request.name ≡ None }
        requires named { IsNamed self.old.inputs.conf request.name }
        requires next { self.old.inputs.next < 2 ^ 63 }
        ensures number { result ≡ self.old.inputs.next }
        ensures opened { self.new
            ≡ record self.old { inputs = with_request self.old.inputs request } }
    {
        let number = self.next;
        self.interfaces.push_reserved(OpenInterface {
            number,
            request,
            answer: None,
        });
        self.next = number + 1;
        number
    }
}

fn no_conf(alloc: Global) -> Conf
    ensures { result ≡ no_inputs.conf }
{
    Conf {
        interfaces: Items::new(alloc),
        devices: Items::new(alloc),
        routes: Items::new(alloc),
        radios: Items::new(alloc),
        names: Items::new(alloc),
        vlans: Items::new(alloc),
    }
}

fn request_at(requests: &[OpenInterface], place: usize) -> Option<&OpenInterface>
    ensures { option_copied result ≡ slice_get requests.now place }
{
    requests.get(place)
}

fn is_request_of(requests: &[OpenInterface], place: usize, interface: &Text) -> bool
    ensures { result ≡ is_request_of interface.now (slice_get requests.now place) }
{
    match request_at(requests, place) {
        Some(open) => open.request.name.as_bytes() == interface.as_bytes(),
        None => false,
    }
}

fn tell(requests: &mut Vec<OpenInterface>, place: usize, answer: Answer)
    requires { place < vec_len requests.old }
    ensures items { requests.new.items ≡ answered_at requests.old.items place answer }
    ensures room { vec_capacity requests.new ≡ vec_capacity requests.old }
{
    requests[place].answer = Some(answer);
}

/// Makes room for so many items in all.
fn make_room<T>(list: &mut Vec<T>, count: usize) -> Result<(), AllocError>
    ensures items { list.new.items ≡ list.old.items }
    ensures room { OnOk result (count ≤ vec_capacity list.new) }
{
    list.reserve(count.saturating_sub(list.len()))
}

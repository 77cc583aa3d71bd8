ghost use Rattle.std.specs.Prelude.{◌≡◌};
ghost use Rattle.std.specs.Option.{option_and_then, option_copied};
ghost use Rattle.net_rules.specs.Rows as rows;
ghost use Rattle.net_rules.specs.RadioPorts as radio_ports;
ghost use Rattle.net_rules.specs.Interfaces as spec;
ghost use Rattle.net_rules.specs.Inputs.{facts_of};
ghost use Rattle.net_view.specs.Levels.{AreLevelsOf};

use crate::levels::Levels;
use crate::radio_ports::is_plain;
use kern_model::DevName;
use net_rows::InterfaceRow;
use net_rules::{Answer, Inputs};
use plane_io::Text;

/// Whether the configuration itself says all of an interface of this protocol.
pub fn is_static(proto: &Text) -> bool
    ensures { result ≡ rows.is_static proto.now }
{
    proto.as_bytes() == b"static".as_slice()
}

/// Whether handlers are asked nothing of an interface of this protocol.
pub fn asks_nothing(proto: &Text) -> bool
    ensures { result ≡ rows.asks_nothing proto.now }
{
    is_static(proto) | (proto.as_bytes() == b"none".as_slice())
}

/// Whether an interface of this protocol does nothing without a device.
pub fn needs_device(proto: &Text) -> bool
    ensures { result ≡ rows.needs_device proto.now }
{
    asks_nothing(proto)
        | (proto.as_bytes() == b"dhcp".as_slice())
        | (proto.as_bytes() == b"dhcpv6".as_slice())
        | (proto.as_bytes() == b"pppoe".as_slice())
}

impl Levels {
    /// Whether the interface has no fault and a name of its own, is not disabled, and was last
    /// brought up.
    pub fn is_enabled(&self, inputs: &Inputs, row: &InterfaceRow) -> bool
        requires { AreLevelsOf inputs.now self.now }
        ensures { result ≡ spec.is_enabled (facts_of inputs.now) row.now }
    {
        let is_up = match self.ports.index.operator_state(inputs, &row.name) {
            Some(operator_state) => operator_state.up,
            None => row.autostart,
        };
        row.faults.as_slice().is_empty() & (!row.anonymous & (!row.disabled & is_up))
    }

    /// The device of the interface.
    pub fn device_of(&self, inputs: &Inputs, row: &InterfaceRow) -> Option<DevName>
        requires { AreLevelsOf inputs.now self.now }
        ensures { result ≡ radio_ports.device_of (facts_of inputs.now) row.now }
    {
        match &row.device {
            Some(device) => Some(*device),
            None => self.ports.first_port(&row.name),
        }
    }

    fn has_device(&self, inputs: &Inputs, proto: &Text, device: Option<DevName>) -> bool
        requires { AreLevelsOf inputs.now self.now }
        ensures { result ≡ spec.has_device (facts_of inputs.now) proto.now device }
    {
        match device {
            Some(device) => self.is_available(inputs, &device),
            None => !needs_device(proto),
        }
    }

    /// Whether the interface is enabled and its device is available.
    pub fn is_claimed(&self, inputs: &Inputs, row: &InterfaceRow) -> bool
        requires { AreLevelsOf inputs.now self.now }
        ensures { result ≡ spec.is_claimed (facts_of inputs.now) row.now }
    {
        let has_device = self.has_device(inputs, &row.proto, self.device_of(inputs, row));
        self.is_enabled(inputs, row) & has_device
    }

    fn has_link_of(&self, inputs: &Inputs, device: Option<DevName>) -> bool
        requires { AreLevelsOf inputs.now self.now }
        ensures { result ≡ spec.has_link (facts_of inputs.now) device }
    {
        match device {
            Some(device) => self.has_link(inputs, &device),
            None => true,
        }
    }

    /// Whether the interface is claimed and its device has link.
    pub fn is_ready(&self, inputs: &Inputs, row: &InterfaceRow) -> bool
        requires { AreLevelsOf inputs.now self.now }
        ensures { result ≡ spec.is_ready (facts_of inputs.now) row.now }
    {
        let has_link = self.has_link_of(inputs, self.device_of(inputs, row));
        self.is_claimed(inputs, row) & (row.force_link | has_link)
    }

    /// The latest answer to the open request of the interface.
    pub fn answer_of<'a>(&self, inputs: &'a Inputs, row: &InterfaceRow) -> Option<&'a Answer>
        requires { AreLevelsOf inputs.now self.now }
        ensures { option_copied result ≡ spec.answer_of (facts_of inputs.now) row.now }
    {
        if asks_nothing(&row.proto) {
            return None;
        }
        match self.ports.index.interface_request(inputs, &row.name) {
            Some(found) => answer_in(&found.answer),
            None => None,
        }
    }

    /// The layer-3 device of the interface.
    pub fn l3_device_of(&self, inputs: &Inputs, row: &InterfaceRow) -> Option<DevName>
        requires { AreLevelsOf inputs.now self.now }
        ensures { result ≡ spec.l3_device_of (facts_of inputs.now) row.now }
    {
        let own = self.device_of(inputs, row);
        device_or_own(self.answer_of(inputs, row), own)
    }

    fn serves_l3_device(
        &self,
        inputs: &Inputs,
        own: Option<DevName>,
        l3_device: Option<DevName>,
    ) -> bool
        requires { AreLevelsOf inputs.now self.now }
        ensures { result ≡ spec.serves_l3_device (facts_of inputs.now) own l3_device }
    {
        match l3_device {
            Some(l3_device) => {
                let is_plain = is_plain(&self.ports.index, inputs, &l3_device);
                self.is_available(inputs, &l3_device) & (is_plain | is_name(&own, &l3_device))
            }
            None => false,
        }
    }

    /// Whether the interface is up.
    pub fn is_up(&self, inputs: &Inputs, row: &InterfaceRow) -> bool
        requires { AreLevelsOf inputs.now self.now }
        ensures { result ≡ spec.is_up (facts_of inputs.now) row.now }
    {
        let own = self.device_of(inputs, row);
        let serves = self.serves_l3_device(inputs, own, self.l3_device_of(inputs, row));
        let is_answered = is_answered_up(self.answer_of(inputs, row)) & serves;
        self.is_ready(inputs, row) & (asks_nothing(&row.proto) | is_answered)
    }
}

fn answer_in(answer: &Option<Answer>) -> Option<&Answer>
    ensures { option_copied result ≡ answer.now }
{
    match answer {
        Some(answer) => Some(answer),
        None => None,
    }
}

fn device_or_own(answer: Option<&Answer>, own: Option<DevName>) -> Option<DevName>
    ensures { result ≡ spec.device_or_own
        (option_and_then (λ a. a.device) (option_copied answer.entry)) own }
{
    let Some(answer) = answer else {
        return own;
    };
    match &answer.device {
        Some(device) => Some(*device),
        None => own,
    }
}

fn is_answered_up(answer: Option<&Answer>) -> bool
    ensures { result ≡ spec.is_answered_up (option_copied answer.entry) }
{
    match answer {
        Some(answer) => answer.up,
        None => false,
    }
}

/// Whether the option is that name.
pub fn is_name(option: &Option<DevName>, name: &DevName) -> bool
    ensures { result ≡ rows.is_name option.now name.now }
{
    match option {
        Some(other) => other.text() == name.text(),
        None => false,
    }
}

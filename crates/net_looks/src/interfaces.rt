//! Whether an interface is enabled, claimed, ready and up, and its devices.
ghost use Rattle.std.specs.Prelude.{◌≡◌};
ghost use Rattle.std.specs.Option.{option_and_then, option_copied};
ghost use Rattle.net_rules.specs.RadioPorts as radio_ports;
ghost use Rattle.net_rules.specs.Interfaces as spec;
ghost use Rattle.net_looks.specs.Look.{IsLookOf, facts_at};

use crate::look::Look;
use kern_model::DevName;
use net_rows::InterfaceRow;
use net_rules::Answer;
use net_view::{asks_nothing, is_name, needs_device};
use plane_io::Text;

impl Look<'_> {
    /// Whether the interface has no fault and a name of its own, is not disabled, and was last
    /// brought up.
    pub fn is_enabled(&self, row: &InterfaceRow) -> bool
        ensures { result ≡ spec.is_enabled (facts_at self.now) row.now }
    {
        let is_up = match self.operator_state(&row.name) {
            Some(operator_state) => operator_state.up,
            None => row.autostart,
        };
        row.faults.as_slice().is_empty() & (!row.anonymous & (!row.disabled & is_up))
    }

    /// The device of the interface.
    pub fn device_of(&self, row: &InterfaceRow) -> Option<DevName>
        requires { IsLookOf self.now }
        ensures { result ≡ radio_ports.device_of (facts_at self.now) row.now }
    {
        match &row.device {
            Some(device) => Some(*device),
            None => self.first_port(&row.name),
        }
    }

    fn has_device(&self, proto: &Text, device: Option<DevName>) -> bool
        requires { IsLookOf self.now }
        ensures { result ≡ spec.has_device (facts_at self.now) proto.now device }
    {
        match device {
            Some(device) => self.is_available(&device),
            None => !needs_device(proto),
        }
    }

    /// Whether the interface is enabled and its device is available.
    pub fn is_claimed(&self, row: &InterfaceRow) -> bool
        requires { IsLookOf self.now }
        ensures { result ≡ spec.is_claimed (facts_at self.now) row.now }
    {
        let has_device = self.has_device(&row.proto, self.device_of(row));
        self.is_enabled(row) & has_device
    }

    fn has_link_of(&self, device: Option<DevName>) -> bool
        requires { IsLookOf self.now }
        ensures { result ≡ spec.has_link (facts_at self.now) device }
    {
        match device {
            Some(device) => self.has_link(&device),
            None => true,
        }
    }

    /// Whether the interface is claimed and its device has link.
    pub fn is_ready(&self, row: &InterfaceRow) -> bool
        requires { IsLookOf self.now }
        ensures { result ≡ spec.is_ready (facts_at self.now) row.now }
    {
        let has_link = self.has_link_of(self.device_of(row));
        self.is_claimed(row) & (row.force_link | has_link)
    }

    /// The layer-3 device of the interface.
    pub fn l3_device_of(&self, row: &InterfaceRow) -> Option<DevName>
        requires { IsLookOf self.now }
        ensures { result ≡ spec.l3_device_of (facts_at self.now) row.now }
    {
        let own = self.device_of(row);
        device_or_own(self.answer_of(row), own)
    }

    fn serves_l3_device(&self, own: Option<DevName>, l3_device: Option<DevName>) -> bool
        requires { IsLookOf self.now }
        ensures { result ≡ spec.serves_l3_device (facts_at self.now) own l3_device }
    {
        match l3_device {
            Some(l3_device) => {
                let is_plain = self.is_plain(&l3_device);
                self.is_available(&l3_device) & (is_plain | is_name(&own, &l3_device))
            }
            None => false,
        }
    }

    /// Whether the interface is up.
    pub fn is_up(&self, row: &InterfaceRow) -> bool
        requires { IsLookOf self.now }
        ensures { result ≡ spec.is_up (facts_at self.now) row.now }
    {
        let own = self.device_of(row);
        let serves = self.serves_l3_device(own, self.l3_device_of(row));
        let is_answered = is_answered_up(self.answer_of(row)) & serves;
        self.is_ready(row) & (asks_nothing(&row.proto) | is_answered)
    }
}

fn device_or_own(answer: Option<&Answer>, own: Option<DevName>) -> Option<DevName>
    ensures { result ≡ spec.device_or_own
        (option_and_then (λ a. a.device) (option_copied answer.entry)) own }
{
    let Some(answer) = answer else {
        return own;
    };
    match &answer.device {
        Some(device) => Some(*device),
        None => own,
    }
}

fn is_answered_up(answer: Option<&Answer>) -> bool
    ensures { result ≡ spec.is_answered_up (option_copied answer.entry) }
{
    match answer {
        Some(answer) => answer.up,
        None => false,
    }
}

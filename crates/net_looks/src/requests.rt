//! The last operator states, and the open requests with their latest answers.
ghost use Rattle.std.specs.Prelude.{◌≡◌};
ghost use Rattle.std.specs.Option.{option_copied};
ghost use Rattle.net_rules.specs.Interfaces as spec;
ghost use Rattle.net_view.specs.Places.{named};
ghost use Rattle.net_looks.specs.Look.{facts_at};

use crate::look::Look;
use net_rows::InterfaceRow;
use net_rules::{Answer, OpenInterface, OpenRadio, OperatorState};
use net_view::asks_nothing;
use plane_io::Text;

impl Look<'_> {
    /// The last operator state for an interface.
    pub(crate) fn operator_state(&self, interface: &Text) -> Option<&OperatorState>
        ensures { option_copied result
            ≡ named (λ c. c.interface) self.now.inputs.now.inputs.operator_states interface.now }
    {
        operator_state_for(self.inputs.operator_states(), interface)
    }

    /// The open request of an interface.
    pub(crate) fn open_request(&self, interface: &Text) -> Option<&OpenInterface>
        ensures { option_copied result
            ≡ named (λ o. o.request.name) self.now.inputs.now.inputs.interfaces interface.now }
    {
        ask_for(self.inputs.interfaces(), interface)
    }

    /// The open request of a radio.
    pub(crate) fn radio_request(&self, radio: &Text) -> Option<&OpenRadio>
        ensures { option_copied result
            ≡ named (λ o. o.request.name) self.now.inputs.now.inputs.radios radio.now }
    {
        request_of_radio(self.inputs.radios(), radio)
    }

    /// The latest answer to the open request of the interface.
    pub fn answer_of(&self, row: &InterfaceRow) -> Option<&Answer>
        ensures { option_copied result ≡ spec.answer_of (facts_at self.now) row.now }
    {
        if asks_nothing(&row.proto) {
            return None;
        }
        match self.open_request(&row.name) {
            Some(found) => answer_in(&found.answer),
            None => None,
        }
    }
}

fn operator_state_for<'a>(
    operator_states: &'a [OperatorState],
    interface: &Text,
) -> Option<&'a OperatorState>
    ensures { option_copied result ≡ named (λ c. c.interface) operator_states.now interface.now }
{
    operator_states.iter().find(|operator_state| operator_state.interface.as_bytes()
        == interface.as_bytes())
}

fn ask_for<'a>(requests: &'a [OpenInterface], interface: &Text) -> Option<&'a OpenInterface>
    ensures { option_copied result ≡ named (λ o. o.request.name) requests.now interface.now }
{
    requests.iter().find(|asked| asked.request.name.as_bytes() == interface.as_bytes())
}

fn request_of_radio<'a>(requests: &'a [OpenRadio], radio: &Text) -> Option<&'a OpenRadio>
    ensures { option_copied result ≡ named (λ o. o.request.name) requests.now radio.now }
{
    requests
        .iter()
        .find(|asked| asked.request.name.as_bytes() == radio.as_bytes())
}

fn answer_in(answer: &Option<Answer>) -> Option<&Answer>
    ensures { option_copied result ≡ answer.now }
{
    match answer {
        Some(answer) => Some(answer),
        None => None,
    }
}

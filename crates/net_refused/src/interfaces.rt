//! Why answers to the requests of interfaces are refused.
ghost use Rattle.std.specs.Prelude.{◌≡◌, is_none};
ghost use Rattle.net_rules.specs.declared.inputs.Inputs.{Inputs};
ghost use Rattle.net_rules.specs.Rows.{interface_named};
ghost use Rattle.net_rules.specs.Inputs.{open_interface};
ghost use Rattle.net_rules.specs.Refusal as spec;
ghost use Rattle.known_inputs.specs.Steps.{request_of};
ghost use Rattle.known_inputs.specs.Places.{is_request_of};
ghost use Rattle.net_reach.specs.Reach.{IsReachOf};

use crate::stale::stale_number;
use known_inputs::KnownInputs;
use net_reach::Reach;
use net_rules::{Answer, MOST_IN_ANSWER, OpenInterface, Refusal};
use plane_io::Text;

/// Why an answer to the request of an interface is refused, if it is.
pub fn answer_refusal(
    inputs: &KnownInputs,
    reach: &Reach,
    interface: &Text,
    number: u64,
    answer: &Answer,
) -> Option<Refusal>
    requires { IsReachOf inputs.now.inputs reach.now }
    ensures { result ≡ spec.answer_refusal inputs.now.inputs interface.now number answer.now }
{
    if is_too_long(answer) {
        return Some(Refusal::Limit {
            number: MOST_IN_ANSWER,
        });
    }
    if lacks_interface(reach, interface) {
        return Some(Refusal::NoInterface);
    }
    number_refusal(inputs, interface, number)
}

fn lacks_interface(reach: &Reach, interface: &Text) -> bool
    ensures { (inputs : Inputs) → IsReachOf inputs reach.now → result
        ≡ is_none (interface_named inputs.conf interface.now) }
{
    reach.interface_place(interface).is_none()
}

fn is_too_long(answer: &Answer) -> bool
    ensures { result ≡ spec.is_too_long answer.now }
{
    let addresses = answer.addresses.as_slice().len() as u64;
    let routes = answer.routes.as_slice().len() as u64;
    (MOST_IN_ANSWER < addresses) | (MOST_IN_ANSWER < routes)
}

// Why a number is refused that is given for the open request of an interface. All open requests are
// looked at where it is stale, to tell theirs.
fn number_refusal(inputs: &KnownInputs, interface: &Text, number: u64) -> Option<Refusal>
    ensures { result ≡ spec.stale_number number (spec.number_of_interface
        (open_interface inputs.now.inputs.interfaces interface.now)) }
{
    let _rows = inputs.conf();
    if is_number_of(inputs, interface, number) {
        return None;
    }
    stale_number(number, open_number(inputs.interfaces(), interface))
}

// Whether the open request of that number is one of the interface.
fn is_number_of(inputs: &KnownInputs, interface: &Text, number: u64) -> bool
    ensures { result ≡ is_request_of interface.now (request_of inputs.now.inputs number) }
{
    match inputs.request(number) {
        Some(asked) => asked.request.name.as_bytes() == interface.as_bytes(),
        None => false,
    }
}

// The number of the open request of an interface.
fn open_number(requests: &[OpenInterface], interface: &Text) -> Option<u64>
    ensures { result ≡ spec.number_of_interface (open_interface requests.now interface.now) }
{
    for asked in requests {
        if asked.request.name.as_bytes() == interface.as_bytes() {
            return Some(asked.number);
        }
    }
    None
}

//! Why answers to the requests of radios are refused.
ghost use Rattle.std.specs.Prelude.{◌≡◌, Some};
ghost use Rattle.std.specs.Option.{option_copied};
ghost use Rattle.net_rules.specs.Inputs.{open_radio};
ghost use Rattle.net_rules.specs.Refusal as spec;
ghost use Rattle.net_reach.specs.Reach.{IsReachOf};

use crate::stale::{refused_if, stale_number};
use kern_model::DevName;
use known_inputs::KnownInputs;
use net_reach::Reach;
use net_rules::{OpenRadio, Refusal};
use plane_io::{Items, Text};

/// Why an answer to the request of a radio is refused, if it is.
pub fn radio_refusal(
    inputs: &KnownInputs,
    reach: &Reach,
    radio: &Text,
    number: u64,
    ports: &Items<Option<DevName>>,
) -> Option<Refusal>
    requires { IsReachOf inputs.now.inputs reach.now }
    ensures { result ≡ spec.radio_refusal inputs.now.inputs radio.now number ports.now }
{
    if reach.radio_place(radio).is_none() {
        return Some(Refusal::NoRadio);
    }
    match open_radio_request(inputs.radios(), radio) {
        Some(asked) => asked_refusal(number, ports.as_slice().len() as u64, asked),
        None => stale_number(number, None),
    }
}

fn asked_refusal(number: u64, ports: u64, asked: &OpenRadio) -> Option<Refusal>
    ensures { result ≡ spec.or_else (spec.stale_number number (Some asked.now.number))
        (spec.wrong_ports ports (Some asked.now)) }
{
    if number != asked.number {
        return Some(Refusal::Stale {
            given: number,
            current: asked.number,
        });
    }
    let wanted = asked.request.rows.as_slice().len() as u64;
    refused_if(ports != wanted, Refusal::WrongPorts { wanted })
}

// The open request of a radio.
fn open_radio_request<'a>(requests: &'a [OpenRadio], name: &Text) -> Option<&'a OpenRadio>
    ensures { option_copied result ≡ open_radio requests.now name.now }
{
    for asked in requests {
        if asked.request.name.as_bytes() == name.as_bytes() {
            return Some(asked);
        }
    }
    None
}

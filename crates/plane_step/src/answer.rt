ghost use Rattle.std.specs.Prelude.{◌≡◌, [], IfOk};
ghost use Rattle.std.specs.Option.{option_map};
ghost use Rattle.serde_json.specs.View.{view};
ghost use Rattle.net_plane.specs.Network.{HasSameKernel};
ghost use Rattle.step_net.specs.Told as told_spec;
ghost use Rattle.step_net.specs.Taken.{telling_in};
ghost use Rattle.script_lines.specs.declared.line_error.LineError.TheVariants as error;
ghost use Rattle.plane_step.specs.Means.{json_of, AnswerAsks, RadioRequests};
ghost use Rattle.step_net.specs.ReloadTaken.{TakesOne};

use answer_json::{read_answer, read_ports};
use net_plane::Net;
use plane_io::{Memory, Text};
use script_lines::LineError;
use serde_json::Value;
use std::alloc::Global;
use step_net::{Told, refuse, take_answer, take_radio, tell};

/// The handler of an interface answers a request, in a line at this number of the script.
pub(crate) fn answer_interface(
    alloc: Global,
    net: &mut Net,
    number: u32,
    interface: Text,
    request: u64,
    json: &Text,
) -> Result<Told, Memory>
    requires { net.old.notices ≡ [] }
    ensures takes { TakesOne (AnswerAsks number interface request json.now) net.old net.new result }
    ensures kernel { HasSameKernel net.old net.new }
{
    let Ok(found) = read_json(alloc, json) else {
        return Err(Memory);
    };
    let Some(value) = found else {
        return refuse_line(alloc, number);
    };
    let Ok(read) = read_answer(alloc, &value) else {
        return Err(Memory);
    };
    match read {
        Some(answer) => tell(alloc, take_answer(alloc, net, interface, request, answer)),
        None => refuse_line(alloc, number),
    }
}

/// The handler of a radio answers a request, in a line at this number of the script.
pub(crate) fn answer_radio(
    alloc: Global,
    net: &mut Net,
    number: u32,
    radio: Text,
    request: u64,
    json: &Text,
) -> Result<Told, Memory>
    requires { net.old.notices ≡ [] }
    ensures takes { TakesOne (RadioRequests number radio request json.now) net.old net.new result }
    ensures kernel { HasSameKernel net.old net.new }
{
    let Ok(found) = read_json(alloc, json) else {
        return Err(Memory);
    };
    let Some(value) = found else {
        return refuse_line(alloc, number);
    };
    let Ok(read) = read_ports(alloc, &value) else {
        return Err(Memory);
    };
    match read {
        Some(ports) => tell(alloc, take_radio(alloc, net, radio, request, ports)),
        None => refuse_line(alloc, number),
    }
}

/// The line at this number is in no row of the table of lines.
pub(crate) fn refuse_line(alloc: Global, number: u32) -> Result<Told, Memory>
    ensures { IfOk result (λ told. telling_in told ≡ told_spec.refused (error.BadLine number)) }
{
    refuse(alloc, &LineError::BadLine { line: number })
}

// The JSON value that a text is, if it is one.
fn read_json(alloc: Global, text: &Text) -> Result<Option<Value>, Memory>
    ensures { IfOk result (λ found. option_map view found ≡ json_of text.now) }
{
    match Value::from_slice(alloc, text.as_bytes()) {
        Ok(value) => Ok(Some(value)),
        Err(error) => {
            if error.is_memory() {
                Err(Memory)
            } else {
                Ok(None)
            }
        }
    }
}

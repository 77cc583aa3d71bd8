//! Calls.
ghost use Rattle.std.specs.Prelude.{IfOk, IfErr};
ghost use Rattle.rpc_network.specs.Arguments as spec;
ghost use Rattle.rpc_network.specs.Asked.{Asks, AsksOperator, AsksAnswer, AsksPorts, AnswersAs};
ghost use Rattle.rpc_network.specs.Reading.{AsksMethod, RefusedFor, Gives, IsFound};

use crate::arguments::{number_of, text_of};
use crate::device_event::event_of;
use crate::method::Method;
use crate::net_call::{NetCall, NetCallError};
use crate::net_object::NetObject;
use answer_json::{read_answer, read_ports};
use blob_codec::Attr;
use blob_json::json_of_blob;
use plane_io::Text;
use std::alloc::Global;

/// What a call of a method of this object asks for with these arguments, of which others are passed
/// over; of equal names the last counts.
///
/// # Errors
///
/// `NoMethod` where the object has no method of that name, `Argument` where one is missing or of
/// another form, and `Memory`.
pub fn read_call(
    alloc: Global,
    object: NetObject,
    method: &[u8],
    args: &[Attr],
) -> Result<NetCall, NetCallError>
    ensures asked { IfOk result (AsksMethod object method.now args.now) }
    ensures refused { IfErr result (RefusedFor object method.now args.now) }
{
    match Method::of(object, method) {
        Some(method) => asked_for(alloc, method, args),
        None => Err(NetCallError::NoMethod),
    }
}

fn asked_for(alloc: Global, method: Method, args: &[Attr]) -> Result<NetCall, NetCallError>
    ensures { Gives method args.now result }
{
    match method {
        Method::Reload => Ok(NetCall::Reload),
        Method::Dump => Ok(NetCall::Dump),
        Method::InterfaceStatus => match needed_text(alloc, args, b"interface") {
            Ok(name) => Ok(NetCall::InterfaceStatus { name }),
            Err(why) => Err(why),
        },
        Method::Up => operator_call(alloc, args, true),
        Method::Down => operator_call(alloc, args, false),
        Method::NotifyProto => answer_call(alloc, args),
        Method::DeviceStatus => match needed_text(alloc, args, b"name") {
            Ok(name) => Ok(NetCall::DeviceStatus { name }),
            Err(why) => Err(why),
        },
        Method::Event => match event_of(args) {
            Some(event) => Ok(NetCall::Device(event)),
            None => Err(NetCallError::Argument),
        },
        Method::RadioStatus => match needed_text(alloc, args, b"radio") {
            Ok(name) => Ok(NetCall::RadioStatus { name }),
            Err(why) => Err(why),
        },
        Method::Notify => radio_call(alloc, args),
    }
}

fn operator_call(alloc: Global, args: &[Attr], up: bool) -> Result<NetCall, NetCallError>
    ensures { AnswersAs (AsksOperator up args.now) result }
{
    match needed_text(alloc, args, b"interface") {
        Ok(interface) => Ok(NetCall::Operator { interface, up }),
        Err(why) => Err(why),
    }
}

fn answer_call(alloc: Global, args: &[Attr]) -> Result<NetCall, NetCallError>
    ensures { AnswersAs (AsksAnswer args.now) result }
{
    let interface = match needed_text(alloc, args, b"interface") {
        Ok(interface) => interface,
        Err(why) => return Err(why),
    };
    let Some(number) = number_of(args, b"number") else {
        return Err(NetCallError::Argument);
    };
    let Ok(value) = json_of_blob(alloc, args) else {
        return Err(NetCallError::Memory);
    };
    let Ok(found) = read_answer(alloc, &value) else {
        return Err(NetCallError::Memory);
    };
    match found {
        Some(answer) => Ok(NetCall::Answer {
            interface,
            number,
            answer,
        }),
        None => Err(NetCallError::Argument),
    }
}

fn radio_call(alloc: Global, args: &[Attr]) -> Result<NetCall, NetCallError>
    ensures { AnswersAs (AsksPorts args.now) result }
{
    let radio = match needed_text(alloc, args, b"radio") {
        Ok(radio) => radio,
        Err(why) => return Err(why),
    };
    let Some(number) = number_of(args, b"number") else {
        return Err(NetCallError::Argument);
    };
    let Ok(value) = json_of_blob(alloc, args) else {
        return Err(NetCallError::Memory);
    };
    let Ok(found) = read_ports(alloc, &value) else {
        return Err(NetCallError::Memory);
    };
    match found {
        Some(ports) => Ok(NetCall::Radio {
            radio,
            number,
            ports,
        }),
        None => Err(NetCallError::Argument),
    }
}

// The text of the last argument with this name.
fn needed_text(alloc: Global, args: &[Attr], name: &[u8]) -> Result<Text, NetCallError>
    ensures { IsFound (spec.text name.now args.now) result }
{
    let Ok(found) = text_of(alloc, args, name) else {
        return Err(NetCallError::Memory);
    };
    match found {
        Some(text) => Ok(text),
        None => Err(NetCallError::Argument),
    }
}

ghost use Rattle.std.specs.Prelude.{◌≡◌, IfOk, Some};
ghost use Rattle.script_lines.specs.declared.script_line.ScriptLine.TheVariants as line;
ghost use Rattle.script_lines.specs.Arguments.{name_of};
ghost use Rattle.script_lines.specs.Lines as spec;

use crate::arguments::{
    USUAL_MTU, read_bytes, read_caller, read_device, read_long_decimal, read_switch,
};
use crate::keyword::Keyword;
use crate::script_line::ScriptLine;
use kern_model::{DevEvent, Mac};
use net_rows::{read_decimal, read_mac};
use plane_io::{Items, Memory, Text};
use std::alloc::Global;

/// What the words of a line ask for, or `None` where they are in no row of the table.
///
/// # Errors
///
/// Want of memory.
pub fn read_line(alloc: Global, words: &[Text]) -> Result<Option<ScriptLine>, Memory>
    ensures { IfOk result (λ found. found ≡ spec.line_of words.now) }
{
    let Some((first, rest)) = words.split_first() else {
        return Ok(None);
    };
    match Keyword::of(first.as_bytes()) {
        Some(keyword) => line_behind(alloc, keyword, rest),
        None => Ok(None),
    }
}

fn line_behind(alloc: Global, keyword: Keyword, rest: &[Text]) -> Result<Option<ScriptLine>, Memory>
    ensures { IfOk result (λ found. found ≡ spec.line_behind keyword rest.now) }
{
    match keyword {
        Keyword::At => Ok(at_line(rest)),
        Keyword::Dev => Ok(device_line(rest)),
        Keyword::Carrier => Ok(carrier_line(rest)),
        Keyword::Answer => answer_line(rest),
        Keyword::Radio => radio_line(rest),
        Keyword::Up => operator_line(true, rest),
        Keyword::Down => operator_line(false, rest),
        Keyword::Reload => Ok(reload_line(rest)),
        Keyword::Uci => uci_line(alloc, rest),
        Keyword::Call => call_line(rest),
        Keyword::Client => client_line(alloc, rest),
        Keyword::Status => status_line(rest),
    }
}

fn at_line(rest: &[Text]) -> Option<ScriptLine>
    ensures { result ≡ spec.at_line rest.now }
{
    let [moment] = rest else {
        return None;
    };
    match read_long_decimal(moment.as_bytes()) {
        Some(moment) => Some(ScriptLine::At { moment }),
        None => None,
    }
}

fn device_line(rest: &[Text]) -> Option<ScriptLine>
    ensures { result ≡ spec.device_line rest.now }
{
    let [what, name, rest @ ..] = rest else {
        return None;
    };
    if what.as_bytes() == b"add".as_slice() {
        added_line(name, rest)
    } else if what.as_bytes() == b"del".as_slice() {
        removed_line(name, rest)
    } else {
        None
    }
}

fn added_line(name: &Text, rest: &[Text]) -> Option<ScriptLine>
    ensures { result ≡ spec.both spec.added (name_of name.now) (spec.coming_of rest.now) }
{
    let name = read_device(name.as_bytes())?;
    let (carrier, mtu, mac) = read_coming(rest)?;
    Some(ScriptLine::Device(DevEvent::Add {
        name,
        carrier,
        mtu,
        mac,
    }))
}

fn removed_line(name: &Text, rest: &[Text]) -> Option<ScriptLine>
    ensures { result ≡ spec.removed_line name.now rest.now }
{
    if !rest.is_empty() {
        return None;
    }
    let name = read_device(name.as_bytes())?;
    Some(ScriptLine::Device(DevEvent::Remove { name }))
}

/// The carrier, the MTU and the hardware address that a device comes with.
fn read_coming(words: &[Text]) -> Option<(bool, u32, Mac)>
    ensures { result ≡ spec.coming_of words.now }
{
    match words {
        [] => Some((true, USUAL_MTU, Mac([0; 6]))),
        [carrier] => {
            let carrier = read_switch(carrier.as_bytes())?;
            Some((carrier, USUAL_MTU, Mac([0; 6])))
        }
        [carrier, mtu, mac] => {
            let carrier = read_switch(carrier.as_bytes())?;
            let mtu = read_decimal(mtu.as_bytes())?;
            let mac = read_mac(mac.as_bytes())?;
            Some((carrier, mtu, mac))
        }
        _ => None,
    }
}

fn carrier_line(rest: &[Text]) -> Option<ScriptLine>
    ensures { result ≡ spec.carrier_line rest.now }
{
    let [name, on] = rest else {
        return None;
    };
    let name = read_device(name.as_bytes())?;
    let on = read_switch(on.as_bytes())?;
    Some(ScriptLine::Device(DevEvent::Carrier { name, on }))
}

fn answer_line(rest: &[Text]) -> Result<Option<ScriptLine>, Memory>
    ensures { IfOk result (λ found. found ≡ spec.answer_line rest.now) }
{
    let [interface, number, json] = rest else {
        return Ok(None);
    };
    match read_long_decimal(number.as_bytes()) {
        Some(number) => Ok(Some(ScriptLine::Answer {
            interface: interface.copy()?,
            number,
            json: json.copy()?,
        })),
        None => Ok(None),
    }
}

fn radio_line(rest: &[Text]) -> Result<Option<ScriptLine>, Memory>
    ensures { IfOk result (λ found. found ≡ spec.radio_line rest.now) }
{
    let [radio, number, json] = rest else {
        return Ok(None);
    };
    match read_long_decimal(number.as_bytes()) {
        Some(number) => Ok(Some(ScriptLine::Radio {
            radio: radio.copy()?,
            number,
            json: json.copy()?,
        })),
        None => Ok(None),
    }
}

fn operator_line(up: bool, rest: &[Text]) -> Result<Option<ScriptLine>, Memory>
    ensures { IfOk result (λ found. found ≡ spec.operator_line up rest.now) }
{
    let [interface] = rest else {
        return Ok(None);
    };
    Ok(Some(ScriptLine::Operator {
        interface: interface.copy()?,
        up,
    }))
}

fn reload_line(rest: &[Text]) -> Option<ScriptLine>
    ensures { result ≡ spec.reload_line rest.now }
{
    if rest.is_empty() {
        Some(ScriptLine::Reload)
    } else {
        None
    }
}

fn uci_line(alloc: Global, rest: &[Text]) -> Result<Option<ScriptLine>, Memory>
    ensures { IfOk result (λ found. found ≡ Some (line.Uci rest.now)) }
{
    let mut words = Items::new(alloc);
    for word in rest {
        words.push(word.copy()?)?;
    }
    Ok(Some(ScriptLine::Uci { words }))
}

fn call_line(rest: &[Text]) -> Result<Option<ScriptLine>, Memory>
    ensures { IfOk result (λ found. found ≡ spec.call_line rest.now) }
{
    let [session, object, method, json] = rest else {
        return Ok(None);
    };
    match read_caller(session.as_bytes()) {
        Some(session) => Ok(Some(ScriptLine::Call {
            session,
            object: object.copy()?,
            method: method.copy()?,
            json: json.copy()?,
        })),
        None => Ok(None),
    }
}

fn client_line(alloc: Global, rest: &[Text]) -> Result<Option<ScriptLine>, Memory>
    ensures { IfOk result (λ found. found ≡ spec.client_line rest.now) }
{
    let Some((client, rest)) = rest.split_first() else {
        return Ok(None);
    };
    match read_decimal(client.as_bytes()) {
        Some(client) => client_done(alloc, client, rest),
        None => Ok(None),
    }
}

fn client_done(alloc: Global, client: u32, rest: &[Text]) -> Result<Option<ScriptLine>, Memory>
    ensures { IfOk result (λ found. found ≡ spec.client_done client rest.now) }
{
    match rest {
        [what] if what.as_bytes() == b"close".as_slice() => {
            Ok(Some(ScriptLine::CloseClient { client }))
        }
        [what, hex] if what.as_bytes() == b"bytes".as_slice() => {
            match read_bytes(alloc, hex.as_bytes())? {
                Some(bytes) => Ok(Some(ScriptLine::ClientBytes { client, bytes })),
                None => Ok(None),
            }
        }
        [what, user, group] if what.as_bytes() == b"open".as_slice() => {
            Ok(Some(ScriptLine::OpenClient {
                client,
                user: user.copy()?,
                group: group.copy()?,
            }))
        }
        _ => Ok(None),
    }
}

fn status_line(rest: &[Text]) -> Result<Option<ScriptLine>, Memory>
    ensures { IfOk result (λ found. found ≡ spec.status_line rest.now) }
{
    if rest.is_empty() {
        return Ok(Some(ScriptLine::Dump));
    }
    let [what, name] = rest else {
        return Ok(None);
    };
    status_of(what.as_bytes(), name)
}

fn status_of(what: &[u8], name: &Text) -> Result<Option<ScriptLine>, Memory>
    ensures { IfOk result (λ found. found ≡ spec.status_of what.now name.now) }
{
    if what == b"interface".as_slice() {
        Ok(Some(ScriptLine::InterfaceStatus { name: name.copy()? }))
    } else if what == b"device".as_slice() {
        Ok(Some(ScriptLine::DeviceStatus { name: name.copy()? }))
    } else if what == b"radio".as_slice() {
        Ok(Some(ScriptLine::RadioStatus { name: name.copy()? }))
    } else {
        Ok(None)
    }
}

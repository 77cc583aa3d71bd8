//! The answers of handlers.
use crate::devices::put_name;
use crate::put::{put_cidr, put_counted, put_via, put_word};
use answer_json::{read_answer, read_ports};
use net_rules::{Answer, AnswerRoute};
use serde_json::Value;
use std::alloc::Global;

/// Puts what the text is as the answer of an interface's handler, a fact a line.
pub(crate) fn put_answer(alloc: Global, out: &mut Vec<u8>, json: &str) -> anyhow::Result<()> {
    let value = Value::from_slice(alloc, json.as_bytes())?;
    match read_answer(alloc, &value)? {
        Some(answer) => put_facts(alloc, out, &answer),
        None => {
            out.extend_from_slice(b"no answer\n")?;
            Ok(())
        }
    }
}

fn put_facts(alloc: Global, out: &mut Vec<u8>, answer: &Answer) -> anyhow::Result<()> {
    out.extend_from_slice(if answer.up { b"up on" } else { b"down on" })?;
    put_name(out, &answer.device)?;
    out.push(b'\n')?;
    for cidr in answer.addresses.as_slice() {
        out.extend_from_slice(b"address")?;
        put_cidr(out, *cidr)?;
        out.push(b'\n')?;
    }
    for route in answer.routes.as_slice() {
        put_route(alloc, out, route)?;
    }
    Ok(())
}

fn put_route(alloc: Global, out: &mut Vec<u8>, route: &AnswerRoute) -> anyhow::Result<()> {
    out.extend_from_slice(b"route")?;
    put_cidr(out, route.target)?;
    if let Some(via) = route.via {
        put_via(out, via)?;
    }
    put_counted(alloc, out, b"metric", u64::from(route.metric))?;
    out.push(b'\n')?;
    Ok(())
}

/// Puts the ports that the text is as the answer of a radio's handler.
pub(crate) fn put_ports(alloc: Global, out: &mut Vec<u8>, json: &str) -> anyhow::Result<()> {
    let value = Value::from_slice(alloc, json.as_bytes())?;
    let Some(ports) = read_ports(alloc, &value)? else {
        out.extend_from_slice(b"no ports\n")?;
        return Ok(());
    };
    out.extend_from_slice(b"ports:")?;
    for port in ports.as_slice() {
        put_name(out, port)?;
    }
    out.push(b'\n')?;
    Ok(())
}

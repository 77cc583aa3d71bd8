//! What lines of a script are read as.
use crate::devices::put_mac;
use crate::put::{put_counted, put_number, put_word};
use kern_model::DevEvent;
use plane_io::Text;
use script_lines::{ScriptLine, read_line};
use std::alloc::Global;
use uci_text::read_lines;

/// Puts what each line of the text asks for. Texts that the line gives stand between quotes.
pub(crate) fn put_lines(alloc: Global, out: &mut Vec<u8>, text: &str) -> anyhow::Result<()> {
    if text.len() > 4096 {
        anyhow::bail!("too long");
    }
    let lines = read_lines(alloc, text.as_bytes())?;
    if lines.as_slice().is_empty() {
        anyhow::bail!("no line");
    }
    for line in lines.as_slice() {
        match read_line(alloc, line.words.as_slice())? {
            Some(line) => put_line(alloc, out, &line)?,
            None => out.extend_from_slice(b"no line")?,
        }
        out.push(b'\n')?;
    }
    Ok(())
}

fn put_line(alloc: Global, out: &mut Vec<u8>, line: &ScriptLine) -> anyhow::Result<()> {
    match line {
        ScriptLine::At { moment } => {
            out.extend_from_slice(b"at")?;
            put_number(alloc, out, *moment)
        }
        ScriptLine::Device(event) => put_event(alloc, out, event),
        ScriptLine::Answer {
            interface,
            number,
            json,
        } => put_reply(alloc, out, b"answer", interface, *number, json),
        ScriptLine::Radio {
            radio,
            number,
            json,
        } => put_reply(alloc, out, b"radio", radio, *number, json),
        ScriptLine::Operator { interface, up } => {
            put_texts(out, if *up { b"up" } else { b"down" }, &[interface])
        }
        ScriptLine::Reload => put_texts(out, b"reload", &[]),
        ScriptLine::Uci { words } => {
            out.extend_from_slice(b"uci")?;
            for word in words.as_slice() {
                put_quoted(out, word)?;
            }
            Ok(())
        }
        _ => put_other(alloc, out, line),
    }
}

/// Puts a line of the message bus, or one that shows something.
fn put_other(alloc: Global, out: &mut Vec<u8>, line: &ScriptLine) -> anyhow::Result<()> {
    match line {
        ScriptLine::Call {
            session,
            object,
            method,
            json,
        } => {
            put_caller(alloc, out, session)?;
            put_texts(out, b"", &[object, method, json])
        }
        ScriptLine::OpenClient {
            client,
            user,
            group,
        } => {
            put_client(alloc, out, *client, b"open")?;
            put_texts(out, b"", &[user, group])
        }
        ScriptLine::ClientBytes { client, bytes } => {
            put_client(alloc, out, *client, b"bytes")?;
            let digits = hex::encode(alloc, bytes.as_bytes())?;
            put_word(out, digits.as_bytes())
        }
        ScriptLine::CloseClient { client } => put_client(alloc, out, *client, b"close"),
        ScriptLine::Dump => put_texts(out, b"status", &[]),
        ScriptLine::InterfaceStatus { name } => put_texts(out, b"status interface", &[name]),
        ScriptLine::DeviceStatus { name } => put_texts(out, b"status device", &[name]),
        ScriptLine::RadioStatus { name } => put_texts(out, b"status radio", &[name]),
        _ => anyhow::bail!("another line"),
    }
}

fn put_event(alloc: Global, out: &mut Vec<u8>, event: &DevEvent) -> anyhow::Result<()> {
    match event {
        DevEvent::Add {
            name,
            carrier,
            mtu,
            mac,
        } => {
            out.extend_from_slice(b"dev add")?;
            put_word(out, name.text())?;
            put_counted(alloc, out, b"carrier", u64::from(*carrier))?;
            put_counted(alloc, out, b"mtu", u64::from(*mtu))?;
            put_mac(alloc, out, mac)
        }
        DevEvent::Remove { name } => {
            out.extend_from_slice(b"dev del")?;
            put_word(out, name.text())
        }
        DevEvent::Carrier { name, on } => {
            out.extend_from_slice(b"carrier")?;
            put_word(out, name.text())?;
            put_number(alloc, out, u64::from(*on))
        }
    }
}

fn put_reply(
    alloc: Global,
    out: &mut Vec<u8>,
    word: &[u8],
    name: &Text,
    number: u64,
    json: &Text,
) -> anyhow::Result<()> {
    put_texts(out, word, &[name])?;
    put_number(alloc, out, number)?;
    put_quoted(out, json)
}

fn put_caller(alloc: Global, out: &mut Vec<u8>, session: &Option<u128>) -> anyhow::Result<()> {
    out.extend_from_slice(b"call")?;
    match session {
        Some(session) => {
            let digits = hex::encode(alloc, &session.to_be_bytes())?;
            put_word(out, digits.as_bytes())
        }
        None => put_word(out, b"-"),
    }
}

fn put_client(alloc: Global, out: &mut Vec<u8>, client: u32, word: &[u8]) -> anyhow::Result<()> {
    out.extend_from_slice(b"client")?;
    put_number(alloc, out, u64::from(client))?;
    put_word(out, word)
}

fn put_texts(out: &mut Vec<u8>, word: &[u8], texts: &[&Text]) -> anyhow::Result<()> {
    out.extend_from_slice(word)?;
    for text in texts {
        put_quoted(out, text)?;
    }
    Ok(())
}

fn put_quoted(out: &mut Vec<u8>, text: &Text) -> anyhow::Result<()> {
    put_word(out, b"'")?;
    out.extend_from_slice(text.as_bytes())?;
    out.push(b'\'')?;
    Ok(())
}

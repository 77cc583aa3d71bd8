use crate::objects::{mac_of, name_of};
use kern_model::{DevName, read_name, read_plain_name};
use net_addr::{
    Addr, AddrError, Cidr, mask_length, network_of, print_addr, print_cidr, read_addr, read_cidr,
};
use std::alloc::Global;
use std::fmt::Write as _;
use std::io::Write as _;

/// Carries out a step about a text.
pub(crate) fn step(
    alloc: Global,
    words: &[&str],
    input: &[u8],
    out: &mut Vec<u8>,
) -> anyhow::Result<()> {
    match words {
        [kind] => text_step(alloc, kind, input, out),
        [kind, text] => text_step(alloc, kind, text.as_bytes(), out),
        ["join", address, length] => join(address, length, out),
        ["order", one, other] => order(one, other, out),
        _ => Err(anyhow::anyhow!("no such step")),
    }
}

fn text_step(alloc: Global, kind: &str, text: &[u8], out: &mut Vec<u8>) -> anyhow::Result<()> {
    match kind {
        "address" => put_address(read_addr(text), out),
        "prefix" => put_prefix(read_cidr(text), out),
        "network" => network(text, out),
        "bits" => bits(text, out),
        "mask" => mask(text, out),
        "mac" => mac(alloc, text, out),
        "name" => put_name(read_name(text), out),
        "plain-name" => put_name(read_plain_name(text), out),
        _ => Err(anyhow::anyhow!("no such step")),
    }
}

/// Puts a line behind what is given.
pub(crate) fn put_line(line: &[u8], out: &mut Vec<u8>) -> anyhow::Result<()> {
    out.extend_from_slice(line)?;
    out.push(b'\n')?;
    Ok(())
}

fn put_error(error: AddrError, out: &mut Vec<u8>) -> anyhow::Result<()> {
    write!(out, "error {} {error}\n", error.number())?;
    Ok(())
}

fn put_address(address: Result<Addr, AddrError>, out: &mut Vec<u8>) -> anyhow::Result<()> {
    let address = match address {
        Ok(address) => address,
        Err(error) => return put_error(error, out),
    };
    let mut line = [0u8; 64];
    let size = print_addr(address, &mut line);
    put_line(&line[..size], out)
}

fn put_prefix(prefix: Result<Cidr, AddrError>, out: &mut Vec<u8>) -> anyhow::Result<()> {
    let prefix = match prefix {
        Ok(prefix) => prefix,
        Err(error) => return put_error(error, out),
    };
    let mut line = [0u8; 64];
    let size = print_cidr(prefix, &mut line);
    put_line(&line[..size], out)
}

fn network(text: &[u8], out: &mut Vec<u8>) -> anyhow::Result<()> {
    match read_cidr(text) {
        Ok(prefix) => put_prefix(Ok(network_of(prefix)), out),
        Err(error) => put_error(error, out),
    }
}

fn bits(text: &[u8], out: &mut Vec<u8>) -> anyhow::Result<()> {
    match read_addr(text) {
        Ok(address) => put_number(Ok(address.bits()), out),
        Err(error) => put_error(error, out),
    }
}

fn put_number(number: Result<u8, AddrError>, out: &mut Vec<u8>) -> anyhow::Result<()> {
    match number {
        Ok(number) => write!(out, "{number}\n")?,
        Err(error) => put_error(error, out)?,
    }
    Ok(())
}

fn mask(text: &[u8], out: &mut Vec<u8>) -> anyhow::Result<()> {
    match read_addr(text) {
        Ok(Addr::V4(mask)) => put_number(mask_length(mask), out),
        _ => Err(anyhow::anyhow!("a mask is an IPv4 address")),
    }
}

fn join(address: &str, length: &str, out: &mut Vec<u8>) -> anyhow::Result<()> {
    let address = read_addr(address.as_bytes())?;
    match Cidr::new(address, length.parse()?) {
        Some(prefix) => put_prefix(Ok(prefix), out),
        None => put_line(b"too long", out),
    }
}

fn mac(alloc: Global, text: &[u8], out: &mut Vec<u8>) -> anyhow::Result<()> {
    let Ok(text) = str::from_utf8(text) else {
        return put_line(b"refused", out);
    };
    let Ok(mac) = mac_of(text) else {
        return put_line(b"refused", out);
    };
    let mut line = String::new(alloc);
    for octet in &mac.0 {
        write!(line, "{octet:02x}:")?;
    }
    put_line(line.trim_end_matches(':').as_bytes(), out)
}

fn put_name(name: Option<DevName>, out: &mut Vec<u8>) -> anyhow::Result<()> {
    match name {
        Some(name) => put_line(name.text(), out),
        None => put_line(b"refused", out),
    }
}

fn order(one: &str, other: &str, out: &mut Vec<u8>) -> anyhow::Result<()> {
    let one = name_of(one)?;
    let other = name_of(other)?;
    if one.same(&other) {
        put_line(b"same", out)
    } else if one < other {
        put_line(b"before", out)
    } else {
        put_line(b"after", out)
    }
}

//! `rows PREFIX COUNT TURNS`: so many times reads the rows of a bridge `br0` with COUNT ports,
//! PREFIX1 and so on, and gives how many names there were in all.
use net_devices::read_devices;
use net_rows::ConfError;
use std::alloc::Global;
use uci_tree::read_package;

/// What the words of the command line ask for.
#[derive(Drop)]
struct Load {
    prefix: String,
    count: u32,
    turns: u16,
}

/// The text of a bridge with so many ports.
fn text_of(alloc: Global, load: &Load) -> Result<Vec<u8>, ConfError> {
    let mut text = Vec::new(alloc);
    text.extend_from_slice(b"config device\n\toption name br0\n\toption type bridge\n")?;
    for number in 1..=load.count {
        text.extend_from_slice(b"\tlist ports ")?;
        text.extend_from_slice(load.prefix.as_bytes())?;
        let digits = format!(in alloc; "{number}\n")?;
        text.extend_from_slice(digits.as_bytes())?;
    }
    Ok(text)
}

fn count_names(alloc: Global, load: &Load) -> Result<u64, ConfError> {
    let text = text_of(alloc, load)?;
    if text.len() > 1048576 {
        return Ok(0);
    }
    let Ok(package) = read_package(alloc, b"network", text.as_slice()) else {
        return Ok(0);
    };
    let mut sum: u64 = 0;
    for _ in 0..load.turns {
        let conf = read_devices(alloc, &package)?;
        sum = sum.wrapping_add(conf.names.as_slice().len() as u64);
    }
    Ok(sum)
}

/// Carries these words out.
pub(crate) fn run(alloc: Global, words: &[&str]) -> anyhow::Result<Option<String>> {
    let [prefix, count, turns] = words else {
        return Ok(None);
    };
    let load = Load {
        prefix: String::from_str(alloc, prefix)?,
        count: count.parse()?,
        turns: turns.parse()?,
    };
    let count = count_names(alloc, &load)?;
    Ok(Some(format!(in alloc; "{count}")?))
}

//! The lines that tell of requests.
use kern_model::{DevName, read_name};
use net_conf::read_conf;
use net_rows::Conf;
use net_rules::Notice;
use request_lines::append_request_line;
use std::alloc::Global;
use uci_tree::Package;

/// Puts the line of the request that the words name.
pub(crate) fn put_request(
    alloc: Global,
    out: &mut Vec<u8>,
    network: &Package,
    wireless: &Package,
    words: &[&str],
) -> anyhow::Result<()> {
    let conf = read_conf(alloc, network, wireless)?;
    put_notice(alloc, out, &conf, words)
}

fn put_notice(alloc: Global, out: &mut Vec<u8>, conf: &Conf, words: &[&str]) -> anyhow::Result<()> {
    let notice = match words {
        ["interface", number, row, device] => {
            let device = device_of(device)?;
            Notice::Interface {
                number: number.parse()?,
                row: row.parse()?,
                device,
            }
        }
        ["radio", number, row] => Notice::Radio {
            number: number.parse()?,
            row: row.parse()?,
        },
        ["drop", number] => Notice::Dropped {
            number: number.parse()?,
        },
        _ => anyhow::bail!("no ask"),
    };
    append_request_line(alloc, conf, &notice, out)?;
    Ok(())
}

fn device_of(word: &str) -> anyhow::Result<Option<DevName>> {
    if word == "-" {
        return Ok(None);
    }
    match read_name(word.as_bytes()) {
        Some(name) => Ok(Some(name)),
        None => anyhow::bail!("no device name"),
    }
}

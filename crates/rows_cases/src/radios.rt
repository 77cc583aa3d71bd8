//! The rows of radios.
use crate::put::{put_faults, put_if, put_options, put_word};
use net_rows::{RadioRow, WifiRow};

/// Puts a line for each radio, and behind it one for each of its interfaces.
pub(crate) fn put_radios(out: &mut Vec<u8>, rows: &[RadioRow]) -> anyhow::Result<()> {
    for row in rows {
        out.extend_from_slice(b"radio")?;
        put_word(out, row.name.as_bytes())?;
        put_if(out, row.disabled, b"disabled")?;
        put_options(out, row.options.as_slice())?;
        put_faults(out, row.faults.as_slice())?;
        for wifi in row.rows.as_slice() {
            put_wifi(out, wifi)?;
        }
    }
    Ok(())
}

fn put_wifi(out: &mut Vec<u8>, row: &WifiRow) -> anyhow::Result<()> {
    out.extend_from_slice(b"  of")?;
    match &row.network {
        Some(network) => put_word(out, network.as_bytes())?,
        None => put_word(out, b"-")?,
    }
    put_if(out, row.disabled, b"disabled")?;
    put_options(out, row.options.as_slice())?;
    out.push(b'\n')?;
    Ok(())
}

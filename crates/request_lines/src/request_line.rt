ghost use Rattle.std.specs.Prelude.{◌≡◌, ◌++◌, OnOk, decimal};
ghost use Rattle.request_lines.specs.RequestLine.{device_text, interface_line, radio_line};
ghost use Rattle.request_lines.specs.RequestLine.{request_line};

use crate::option_data::{options_text, radio_text};
use itoa::Buffer;
use kern_model::DevName;
use net_rows::{Conf, InterfaceRow, RadioRow};
use net_rules::Notice;
use plane_io::Memory;
use std::alloc::Global;

/// Appends the line of a notice about these rows, with its newline.
///
/// # Errors
///
/// Want of memory. Then a part of the line may stand there.
pub fn append_request_line(
    alloc: Global,
    conf: &Conf,
    notice: &Notice,
    out: &mut Vec<u8>,
) -> Result<(), Memory>
    ensures { OnOk result (out.new.items ≡ out.old.items ++ request_line conf.now notice.now) }
{
    match notice {
        Notice::Dropped { number } => {
            out.extend_from_slice(b"drop ")?;
            append_number(*number, out)?;
            out.push(b'\n')?;
            Ok(())
        }
        Notice::Interface {
            number,
            row,
            device,
        } => match conf.interfaces.as_slice().get(*row) {
            Some(row) => append_interface(alloc, *number, device, row, out),
            None => Ok(()),
        },
        Notice::Radio { number, row } => match conf.radios.as_slice().get(*row) {
            Some(row) => append_radio(alloc, *number, row, out),
            None => Ok(()),
        },
    }
}

fn append_number(number: u64, out: &mut Vec<u8>) -> Result<(), Memory>
    ensures { OnOk result (out.new.items ≡ out.old.items ++ decimal number) }
{
    let mut digits = Buffer::new();
    out.extend_from_slice(digits.format(number).as_bytes())?;
    Ok(())
}

fn append_interface(
    alloc: Global,
    number: u64,
    device: &Option<DevName>,
    row: &InterfaceRow,
    out: &mut Vec<u8>,
) -> Result<(), Memory>
    ensures { OnOk result
        (out.new.items ≡ out.old.items ++ interface_line number device.now row.now) }
{
    let options = options_text(alloc, row.options.as_slice())?;
    out.extend_from_slice(b"ask ")?;
    append_number(number, out)?;
    out.extend_from_slice(b" interface ")?;
    out.extend_from_slice(row.name.as_bytes())?;
    out.push(b' ')?;
    out.extend_from_slice(row.proto.as_bytes())?;
    out.push(b' ')?;
    out.extend_from_slice(device_text(device))?;
    out.push(b' ')?;
    out.extend_from_slice(&options)?;
    out.push(b'\n')?;
    Ok(())
}

fn device_text(device: &Option<DevName>) -> &[u8]
    ensures { result.now ≡ device_text device.now }
{
    match device {
        Some(name) => name.text(),
        None => b"-",
    }
}

fn append_radio(alloc: Global, number: u64, row: &RadioRow, out: &mut Vec<u8>) -> Result<(), Memory>
    ensures { OnOk result (out.new.items ≡ out.old.items ++ radio_line number row.now) }
{
    let options = radio_text(alloc, row)?;
    out.extend_from_slice(b"ask ")?;
    append_number(number, out)?;
    out.extend_from_slice(b" radio ")?;
    out.extend_from_slice(row.name.as_bytes())?;
    out.push(b' ')?;
    out.extend_from_slice(&options)?;
    out.push(b'\n')?;
    Ok(())
}

ghost use Rattle.std.specs.Prelude.{◌≡◌, ◌++◌, decimal, OnOk};
ghost use Rattle.std.specs.List.{flat_map, list_any};
ghost use Rattle.uci_text.specs.Quote.{quoted};
ghost use Rattle.uci_cli.specs.Values as spec;

use itoa::Buffer;
use plane_io::{Memory, Text};
use uci_text::quote_into;
use uci_tree::Value;

/// Appends a number in decimal digits.
pub fn append_number(out: &mut Vec<u8>, number: u64) -> Result<(), Memory>
    ensures { OnOk result (out.new.items ≡ out.old.items ++ decimal number) }
{
    let mut digits = Buffer::new();
    out.extend_from_slice(digits.format(number).as_bytes())?;
    Ok(())
}

/// Appends a value as `show` writes it: quoted, and the items of a list with a text between them.
pub fn show_value(out: &mut Vec<u8>, between: &[u8], value: &Value) -> Result<(), Memory>
    ensures { OnOk result (out.new.items ≡ out.old.items
        ++ spec.shown_value between.now value.now) }
{
    match value {
        Value::One(text) => quote_into(out, text.as_bytes()),
        Value::Many(items) => show_items(out, between, items.as_slice()),
    }
}

fn show_items(out: &mut Vec<u8>, between: &[u8], items: &[Text]) -> Result<(), Memory>
    ensures { OnOk result
        (out.new.items ≡ out.old.items ++ spec.joined between.now quoted items.now) }
{
    let Some((first, others)) = items.split_first() else {
        return Ok(());
    };
    quote_into(out, first.as_bytes())?;
    for item in others {
        out.extend_from_slice(between)?;
        quote_into(out, item.as_bytes())?;
    }
    Ok(())
}

/// Appends a value as `get` writes it: as it is, and the items of a list with a text between them,
/// where those that hold a gap are quoted.
pub fn give_value(out: &mut Vec<u8>, between: &[u8], value: &Value) -> Result<(), Memory>
    ensures { OnOk result (out.new.items ≡ out.old.items
        ++ spec.given_value between.now value.now) }
{
    match value {
        Value::One(text) => {
            out.extend_from_slice(text.as_bytes())?;
            Ok(())
        }
        Value::Many(items) => give_items(out, between, items.as_slice()),
    }
}

fn give_items(out: &mut Vec<u8>, between: &[u8], items: &[Text]) -> Result<(), Memory>
    ensures { OnOk result
        (out.new.items ≡ out.old.items ++ spec.joined between.now spec.item_text items.now) }
{
    let Some((first, others)) = items.split_first() else {
        return Ok(());
    };
    give_item(out, first.as_bytes())?;
    for item in others {
        out.extend_from_slice(between)?;
        give_item(out, item.as_bytes())?;
    }
    Ok(())
}

fn give_item(out: &mut Vec<u8>, item: &[u8]) -> Result<(), Memory>
    ensures { OnOk result (out.new.items ≡ out.old.items ++ spec.item_text item.now) }
{
    if has_gap(item) {
        return quote_into(out, item);
    }
    out.extend_from_slice(item)?;
    Ok(())
}

fn has_gap(item: &[u8]) -> bool
    ensures { result ≡ list_any spec.is_gap item.now }
{
    item.iter()
        .any(|byte| matches!(*byte, b' ' | b'\t' | b'\r' | b'\n'))
}

ghost use Rattle.std.specs.Prelude.{◌≡◌, IfOk, filter, not};
ghost use Rattle.serde_json.specs.View.{view};
ghost use Rattle.serde_json.specs.Written.{compact_text};
ghost use Rattle.request_lines.specs.OptionData.{texts_data, value_data, options_data, rows_data};
ghost use Rattle.request_lines.specs.OptionData.{radio_data};

use blob_codec::json_string;
use net_rows::{RadioRow, WifiRow};
use plane_io::{Memory, Text};
use serde_json::{Map, Value, json};
use std::alloc::Global;
use uci_tree::{Opt, Value as OptionValue};

/// The options as the text of a JSON object: a single value is a string, and a list an array of
/// strings. Bytes that are no UTF-8 are given as the characters of their numbers.
///
/// # Errors
///
/// Want of memory.
pub fn options_text(alloc: Global, options: &[Opt]) -> Result<Vec<u8>, Memory>
    ensures { IfOk result (λ text. text.items ≡ compact_text (options_data options.now)) }
{
    let value = options_json(alloc, options)?;
    Ok(value.to_vec(alloc)?)
}

/// What the handler of a radio is shown, as JSON text: `config`, the options of the radio, and
/// `interfaces`, those of each of its enabled sections in file order.
///
/// # Errors
///
/// Want of memory.
pub fn radio_text(alloc: Global, radio: &RadioRow) -> Result<Vec<u8>, Memory>
    ensures { IfOk result (λ text. text.items ≡ compact_text (radio_data radio.now)) }
{
    let value = radio_json(alloc, radio)?;
    Ok(value.to_vec(alloc)?)
}

fn options_json(alloc: Global, options: &[Opt]) -> Result<Value, Memory>
    ensures { IfOk result (λ value. view value ≡ options_data options.now) }
{
    let mut members = Map::new(alloc);
    for option in options {
        let name = json_string(alloc, option.name.as_bytes())?;
        let value = value_json(alloc, &option.value)?;
        drop(members.insert(name, value)?);
    }
    Ok(Value::Object(members))
}

fn value_json(alloc: Global, value: &OptionValue) -> Result<Value, Memory>
    ensures { IfOk result (λ json. view json ≡ value_data value.now) }
{
    match value {
        OptionValue::One(text) => Ok(Value::String(json_string(alloc, text.as_bytes())?)),
        OptionValue::Many(texts) => texts_json(alloc, texts.as_slice()),
    }
}

fn texts_json(alloc: Global, texts: &[Text]) -> Result<Value, Memory>
    ensures { IfOk result (λ json. view json ≡ texts_data texts.now) }
{
    let mut items = Vec::new(alloc);
    for text in texts {
        items.push(Value::String(json_string(alloc, text.as_bytes())?))?;
    }
    Ok(Value::Array(items))
}

fn radio_json(alloc: Global, radio: &RadioRow) -> Result<Value, Memory>
    ensures { IfOk result (λ value. view value ≡ radio_data radio.now) }
{
    let config = options_json(alloc, radio.options.as_slice())?;
    let interfaces = rows_json(alloc, radio.rows.as_slice())?;
    Ok(json!(in alloc; {"config": config, "interfaces": interfaces})?)
}

fn rows_json(alloc: Global, rows: &[WifiRow]) -> Result<Value, Memory>
    ensures { IfOk result (λ json. view json
        ≡ rows_data (filter (λ row. not row.disabled) rows.now)) }
{
    let mut items = Vec::new(alloc);
    for row in rows {
        if !row.disabled {
            items.push(options_json(alloc, row.options.as_slice())?)?;
        }
    }
    Ok(Value::Array(items))
}

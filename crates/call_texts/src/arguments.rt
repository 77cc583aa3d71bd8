ghost use Rattle.std.specs.Prelude.{◌≡◌, ◌≢◌, Ok, Err, IfOk};
ghost use Rattle.std.specs.Option.{option_map};
ghost use Rattle.serde_json.specs.View.{view};
ghost use Rattle.script_lines.specs.declared.line_error.LineError.TheVariants as error;
ghost use Rattle.call_texts.specs.Arguments as spec;

use blob_codec::{Attr, Blob};
use blob_json::{JsonError, blob_of_json};
use plane_io::{Memory, Text};
use rpc_session::id_text;
use script_lines::LineError;
use serde_json::Value;
use sqlite_items::Items;
use std::alloc::Global;

/// The arguments that a text of JSON is, in a line at this number of the script.
///
/// # Errors
///
/// `BadLine` where the text is no JSON, `NotTable`, `Deep`, `Wide` or `Fraction` where its value is
/// no object or has a part that no blob holds, and `Memory`.
pub fn read_arguments(alloc: Global, number: u32, json: &Text) -> Result<Items<Attr>, LineError>
    ensures found { IfOk result (λ args. spec.arguments_of number json.now ≡ Ok args) }
    ensures refused { (e : _) → result ≡ Err e → e ≢ error.Memory →
        spec.arguments_of number json.now ≡ Err e }
{
    match read_json(alloc, json) {
        Ok(Some(value)) => convert(alloc, &value),
        Ok(None) => Err(LineError::BadLine { line: number }),
        Err(_) => Err(LineError::Memory),
    }
}

/// The JSON value that a text is, if it is one.
///
/// # Errors
///
/// Want of memory.
pub fn read_json(alloc: Global, text: &Text) -> Result<Option<Value>, Memory>
    ensures { IfOk result (λ found. option_map view found ≡ spec.json_of text.now) }
{
    match Value::from_slice(alloc, text.as_bytes()) {
        Ok(value) => Ok(Some(value)),
        Err(error) => {
            if error.is_memory() {
                Err(Memory)
            } else {
                Ok(None)
            }
        }
    }
}

fn convert(alloc: Global, value: &Value) -> Result<Items<Attr>, LineError>
    ensures found { IfOk result (λ args. spec.table_of (view value.now) ≡ Ok args) }
    ensures refused { (e : _) → result ≡ Err e → e ≢ error.Memory →
        spec.table_of (view value.now) ≡ Err e }
{
    match blob_of_json(alloc, value) {
        Ok(args) => Ok(args),
        Err(error) => Err(line_error(error)),
    }
}

fn line_error(error: JsonError) -> LineError
    ensures { result ≡ spec.line_error error }
{
    match error {
        JsonError::Fraction { .. } => LineError::Fraction,
        JsonError::Wide { .. } => LineError::Wide,
        JsonError::Deep { .. } => LineError::Deep,
        JsonError::NotTable => LineError::NotTable,
        JsonError::Memory => LineError::Memory,
    }
}

/// The arguments with this session behind them, which goes before any that they name: of equal
/// names the last counts.
///
/// # Errors
///
/// Want of memory.
pub fn name_session(
    alloc: Global,
    mut args: Items<Attr>,
    session: u128,
) -> Result<Items<Attr>, Memory>
    ensures { IfOk result (λ named. named ≡ spec.with_session session args) }
{
    let text = id_text(alloc, session)?;
    args.push(Attr {
        name: Text::from_bytes(alloc, b"ubus_rpc_session")?,
        value: Blob::Str(text),
    })?;
    Ok(args)
}

ghost use Rattle.std.specs.Prelude.{◌≡◌, codes, IfOk};
ghost use Rattle.std.specs.Option.{option_copied};
ghost use Rattle.rpc_session.specs.Arguments as spec;

use blob_codec::{Attr, Blob};
use plane_io::{Memory, Text};
use std::alloc::Global;

/// How many seconds without a use end a session, where nothing else is said.
const USUAL_TIMEOUT: u32 = 300;

/// The value of the last argument with this name.
pub fn argument<'a>(args: &'a [Attr], name: &[u8]) -> Option<&'a Blob>
    ensures { option_copied result ≡ spec.argument name.now args.now }
{
    let mut found = None;
    for attr in args {
        if attr.name.as_bytes() == name {
            found = Some(&attr.value);
        }
    }
    found
}

/// The text of a value that is one.
pub fn text_of(value: &Blob) -> Option<&[u8]>
    ensures { option_copied result ≡ spec.text_of value.now }
{
    match value {
        Blob::Str(text) => Some(text.as_bytes()),
        Blob::Unspec | Blob::Array(_) | Blob::Table(_) => None,
        Blob::I64(_) | Blob::I32(_) | Blob::I16(_) | Blob::I8(_) => None,
    }
}

/// The items of a value that is an array.
pub fn array_of(value: &Blob) -> Option<&[Attr]>
    ensures { option_copied result ≡ spec.array_of value.now }
{
    match value {
        Blob::Array(items) => Some(items.as_slice()),
        Blob::Unspec | Blob::Table(_) | Blob::Str(_) => None,
        Blob::I64(_) | Blob::I32(_) | Blob::I16(_) | Blob::I8(_) => None,
    }
}

/// The values of a value that is a table.
pub fn table_of(value: &Blob) -> Option<&[Attr]>
    ensures { option_copied result ≡ spec.table_of value.now }
{
    match value {
        Blob::Table(attrs) => Some(attrs.as_slice()),
        Blob::Unspec | Blob::Array(_) | Blob::Str(_) => None,
        Blob::I64(_) | Blob::I32(_) | Blob::I16(_) | Blob::I8(_) => None,
    }
}

/// The text of the last argument with this name.
pub fn text_argument<'a>(args: &'a [Attr], name: &[u8]) -> Option<&'a [u8]>
    ensures { option_copied result ≡ spec.needed_text (spec.argument name.now args.now) }
{
    match argument(args, name) {
        Some(value) => text_of(value),
        None => None,
    }
}

/// The items of the last argument with this name.
pub fn array_argument<'a>(args: &'a [Attr], name: &[u8]) -> Option<&'a [Attr]>
    ensures { option_copied result ≡ spec.needed_array (spec.argument name.now args.now) }
{
    match argument(args, name) {
        Some(value) => array_of(value),
        None => None,
    }
}

/// The values of the last argument with this name.
pub fn table_argument<'a>(args: &'a [Attr], name: &[u8]) -> Option<&'a [Attr]>
    ensures { option_copied result ≡ spec.needed_table (spec.argument name.now args.now) }
{
    match argument(args, name) {
        Some(value) => table_of(value),
        None => None,
    }
}

/// The scope of a grant among the arguments: `ubus` where it is not there.
pub(crate) fn scope_in(args: &[Attr]) -> Option<&[u8]>
    ensures { option_copied result ≡ spec.scope_in args.now }
{
    match argument(args, b"scope") {
        Some(value) => text_of(value),
        None => Some(b"ubus"),
    }
}

/// The timeout among the arguments: 300 seconds where it is not there.
pub(crate) fn timeout_in(args: &[Attr]) -> Option<u32>
    ensures { result ≡ spec.timeout_in args.now }
{
    match argument(args, b"timeout") {
        Some(value) => seconds_of(value),
        None => Some(USUAL_TIMEOUT),
    }
}

fn seconds_of(value: &Blob) -> Option<u32>
    ensures { result ≡ spec.seconds_of value.now }
{
    match value {
        Blob::I64(number) => u32::try_from(*number).ok(),
        Blob::I32(number) => u32::try_from(*number).ok(),
        Blob::I16(number) => u32::try_from(*number).ok(),
        Blob::Unspec | Blob::Array(_) | Blob::Table(_) | Blob::Str(_) | Blob::I8(_) => None,
    }
}

/// The id of the session that the arguments name, as 32 hexadecimal digits of either case.
pub fn session_named(args: &[Attr]) -> Option<u128>
    ensures { result ≡ spec.id_in args.now }
{
    match text_argument(args, b"ubus_rpc_session") {
        Some(text) => id_of(text),
        None => None,
    }
}

/// The id that 32 hexadecimal digits are.
fn id_of(text: &[u8]) -> Option<u128>
    ensures { result ≡ spec.id_of text.now }
{
    let mut bytes = [0; 16];
    match hex::decode_to_slice(text, &mut bytes) {
        Ok(()) => Some(u128::from_be_bytes(bytes)),
        Err(_) => None,
    }
}

/// The id as 32 hexadecimal digits, the letters in lower case.
pub fn id_text(alloc: Global, id: u128) -> Result<Text, Memory>
    ensures { IfOk result (λ text. text ≡ spec.id_text id) }
{
    let digits = hex::encode(alloc, id.to_be_bytes())?;
    Ok(Text::from_vec(digits.into_bytes()))
}

ghost use Rattle.std.specs.Prelude.{◌≡◌};
ghost use Rattle.std.specs.Option.{option_copied};
ghost use Rattle.ubus_table.specs.Arguments as spec;

use blob_codec::{Attr, Blob};

/// The value of the last argument with this name.
fn argument<'a>(args: &'a [Attr], name: &[u8]) -> Option<&'a Blob>
    ensures { option_copied result ≡ spec.argument name.now args.now }
{
    let mut found = None;
    for attr in args {
        if attr.name.as_bytes() == name {
            found = Some(&attr.value);
        }
    }
    found
}

fn text_of(value: &Blob) -> Option<&[u8]>
    ensures { option_copied result ≡ spec.text_of value.now }
{
    match value {
        Blob::Str(text) => Some(text.as_bytes()),
        Blob::Unspec | Blob::Array(_) | Blob::Table(_) => None,
        Blob::I64(_) | Blob::I32(_) | Blob::I16(_) | Blob::I8(_) => None,
    }
}

fn values_of(value: &Blob) -> Option<&[Attr]>
    ensures { option_copied result ≡ spec.values_of value.now }
{
    match value {
        Blob::Table(attrs) => Some(attrs.as_slice()),
        Blob::Unspec | Blob::Array(_) | Blob::Str(_) => None,
        Blob::I64(_) | Blob::I32(_) | Blob::I16(_) | Blob::I8(_) => None,
    }
}

fn number_of(value: &Blob) -> Option<i64>
    ensures { result ≡ spec.number_of value.now }
{
    match value {
        Blob::I64(number) => Some(*number),
        Blob::I32(number) => Some(i64::from(*number)),
        Blob::I16(number) => Some(i64::from(*number)),
        Blob::Unspec | Blob::Array(_) | Blob::Table(_) | Blob::Str(_) | Blob::I8(_) => None,
    }
}

/// The text of the last argument with this name.
pub fn text_argument<'a>(args: &'a [Attr], name: &[u8]) -> Option<&'a [u8]>
    ensures { option_copied result ≡ spec.text_argument name.now args.now }
{
    match argument(args, name) {
        Some(value) => text_of(value),
        None => None,
    }
}

/// The values of the last argument with this name, where it is a table.
pub fn table_argument<'a>(args: &'a [Attr], name: &[u8]) -> Option<&'a [Attr]>
    ensures { option_copied result ≡ spec.table_argument name.now args.now }
{
    match argument(args, name) {
        Some(value) => values_of(value),
        None => None,
    }
}

/// The number of the last argument with this name, where it has at least two bytes.
pub fn number_argument(args: &[Attr], name: &[u8]) -> Option<i64>
    ensures { result ≡ spec.number_argument name.now args.now }
{
    match argument(args, name) {
        Some(value) => number_of(value),
        None => None,
    }
}

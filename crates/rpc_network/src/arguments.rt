//! Single arguments.
ghost use Rattle.std.specs.Prelude.{◌≡◌, IfOk};
ghost use Rattle.rpc_network.specs.Arguments as spec;

use blob_codec::{Attr, Blob};
use plane_io::{Memory, Text};
use rpc_session::{argument, text_argument};
use std::alloc::Global;

/// A copy of the text of the last argument with this name, where it is there and a text.
pub(crate) fn text_of(alloc: Global, args: &[Attr], name: &[u8]) -> Result<Option<Text>, Memory>
    ensures { IfOk result (λ found. found ≡ spec.text name.now args.now) }
{
    match text_argument(args, name) {
        Some(text) => Ok(Some(Text::from_bytes(alloc, text)?)),
        None => Ok(None),
    }
}

/// The number from 0 on of the last argument with this name, where it is there and such a number.
pub(crate) fn number_of(args: &[Attr], name: &[u8]) -> Option<u64>
    ensures { result ≡ spec.number name.now args.now }
{
    whole_of(argument(args, name)?)
}

/// The truth value of the last argument with this name, where it is there and a truth value.
pub(crate) fn truth_of(args: &[Attr], name: &[u8]) -> Option<bool>
    ensures { result ≡ spec.truth name.now args.now }
{
    is_true(argument(args, name)?)
}

/// The same, or this one where it is not there.
pub(crate) fn truth_or(args: &[Attr], name: &[u8], usual: bool) -> Option<bool>
    ensures { result ≡ spec.truth_or usual name.now args.now }
{
    match argument(args, name) {
        Some(value) => is_true(value),
        None => Some(usual),
    }
}

/// The number from 0 on that a value of at least two bytes is.
pub(crate) fn whole_of(value: &Blob) -> Option<u64>
    ensures { result ≡ spec.whole_of value.now }
{
    match value {
        Blob::I64(number) => u64::try_from(*number).ok(),
        Blob::I32(number) => u64::try_from(*number).ok(),
        Blob::I16(number) => u64::try_from(*number).ok(),
        Blob::Unspec | Blob::Array(_) | Blob::Table(_) | Blob::Str(_) | Blob::I8(_) => None,
    }
}

fn is_true(value: &Blob) -> Option<bool>
    ensures { result ≡ spec.truth_of value.now }
{
    match value {
        Blob::I8(number) => Some(*number != 0),
        Blob::Unspec | Blob::Array(_) | Blob::Table(_) | Blob::Str(_) => None,
        Blob::I64(_) | Blob::I32(_) | Blob::I16(_) => None,
    }
}

ghost use Rattle.std.specs.Prelude.{◌≡◌, Some, Ok, IfOk, IfErr, codes};
ghost use Rattle.std.specs.Option.{option_copied};
ghost use Rattle.rpc_session.specs.Values.{are_texts as all_texts};
ghost use Rattle.blob_codec.specs.declared.blob.Blob.TheViews.{out-Blob};
ghost use Rattle.rpc_session.specs.Arguments.{argument as argument_of, seconds_of as seconds_in};
ghost use Rattle.rpc_rules.specs.Arguments as spec;
ghost use Rattle.rpc_rules.specs.Status.{IsStatusOf};

use crate::method::{Edit, Question};
use crate::rpc_error::{BAD_ARGUMENT, RpcError};
use blob_codec::{Attr, Blob};
use rpc_session::{argument, array_argument, table_argument, text_argument, text_of};

/// How many seconds an apply waits for a confirm, where nothing else is said.
const USUAL_TIMEOUT: u32 = 60;

/// The most seconds that it may be told to wait: a day.
const LONGEST_TIMEOUT: u32 = 86_400;

/// The package that the arguments name.
pub fn config_in(args: &[Attr]) -> Option<&[u8]>
    ensures { option_copied result ≡ spec.config_in args.now }
{
    text_argument(args, b"config")
}

/// Whether the arguments of a question are of their form, but for its package.
pub fn question_fits(question: Question, args: &[Attr]) -> bool
    ensures { result ≡ spec.question_fits question args.now }
{
    match question {
        Question::Configs => true,
        Question::Get => get_fits(args),
        Question::Changes => is_optional(args, b"config"),
    }
}

fn get_fits(args: &[Attr]) -> bool
    ensures { result ≡ spec.question_fits Question.Get args.now }
{
    is_optional(args, b"section")
        && is_optional(args, b"option")
        && (is_given(args, b"section") || !is_given(args, b"option"))
}

/// Whether the arguments of a method that stages changes are of their form, but for its package.
pub fn edit_fits(edit: Edit, args: &[Attr]) -> bool
    ensures { result ≡ spec.edit_fits edit args.now }
{
    match edit {
        Edit::Add => {
            is_given(args, b"type") && is_optional(args, b"name") && has_values_or_none(args)
        }
        Edit::Set => is_given(args, b"section") && has_values(args),
        Edit::Delete => is_given(args, b"section") && is_optional(args, b"option"),
        Edit::Rename => {
            is_given(args, b"section") && is_optional(args, b"option") && is_given(args, b"name")
        }
        Edit::Order => is_list(array_argument(args, b"sections")),
    }
}

fn is_given(args: &[Attr], name: &[u8]) -> bool
    ensures { result ≡ spec.is_given name.now args.now }
{
    let Some(_) = text_argument(args, name) else {
        return false;
    };
    true
}

fn is_optional(args: &[Attr], name: &[u8]) -> bool
    ensures { result ≡ spec.is_optional name.now args.now }
{
    match argument(args, name) {
        Some(value) => is_text(value),
        None => true,
    }
}

fn is_text(value: &Blob) -> bool
    ensures { result ≡ spec.is_text value.now }
{
    let Some(_) = text_of(value) else {
        return false;
    };
    true
}

fn is_list(items: Option<&[Attr]>) -> bool
    ensures { result ≡ spec.is_list (option_copied items.entry) }
{
    match items {
        Some(items) => are_texts(items),
        None => false,
    }
}

fn are_texts(items: &[Attr]) -> bool
    ensures { result ≡ all_texts items.now }
{
    for item in items {
        if !is_text(&item.value) {
            return false;
        }
    }
    true
}

fn has_values(args: &[Attr]) -> bool
    ensures { result ≡ spec.has_values args.now }
{
    match values_argument(args) {
        Some(values) => are_values(values),
        None => false,
    }
}

fn has_values_or_none(args: &[Attr]) -> bool
    ensures { result ≡ spec.has_values_or_none args.now }
{
    let Some(_) = argument(args, b"values") else {
        return true;
    };
    has_values(args)
}

/// The values by option that the arguments give.
pub(crate) fn values_argument(args: &[Attr]) -> Option<&[Attr]>
    ensures { option_copied result ≡ spec.values_argument args.now }
{
    table_argument(args, b"values")
}

/// The same, none where there is no such argument.
pub(crate) fn values_or_none(args: &[Attr]) -> &[Attr]
    ensures { result.now ≡ spec.values_or_none (spec.values_argument args.now) }
{
    match values_argument(args) {
        Some(values) => values,
        None => &[],
    }
}

fn are_values(attrs: &[Attr]) -> bool
    ensures { result ≡ spec.are_values attrs.now }
{
    for attr in attrs {
        if !is_value(&attr.value) {
            return false;
        }
    }
    true
}

fn is_value(value: &Blob) -> bool
    ensures { result ≡ spec.is_value value.now }
{
    match value {
        Blob::Str(_) => true,
        Blob::Array(items) => are_texts(items.as_slice()),
        Blob::Unspec | Blob::Table(_) => false,
        Blob::I64(_) | Blob::I32(_) | Blob::I16(_) | Blob::I8(_) => false,
    }
}

/// Until when an apply is to wait for a confirm, where it is to.
///
/// # Errors
///
/// Status 2 where `rollback` is no truth value, or `timeout` no number from 1 to 86,400.
pub fn apply_deadline(args: &[Attr], now: u64) -> Result<Option<u64>, RpcError>
    ensures done { IfOk result (λ deadline. spec.apply_deadline args.now now ≡ Ok deadline) }
    ensures refused { IfErr result (IsStatusOf (spec.apply_deadline args.now now)) }
{
    let Some(rollback) = rollback_in(args) else {
        return Err(RpcError::Status(BAD_ARGUMENT));
    };
    let Some(timeout) = timeout_in(args) else {
        return Err(RpcError::Status(BAD_ARGUMENT));
    };
    Ok(deadline_of(rollback, timeout, now))
}

fn deadline_of(rollback: bool, timeout: u32, now: u64) -> Option<u64>
    ensures { spec.deadline_of (Some rollback) (Some timeout) now ≡ Ok result }
{
    if rollback {
        Some(now.saturating_add(u64::from(timeout)))
    } else {
        None
    }
}

fn rollback_in(args: &[Attr]) -> Option<bool>
    ensures { result ≡ spec.flag_or_false (argument_of (codes "rollback") args.now) }
{
    match argument(args, b"rollback") {
        Some(value) => flag_of(value),
        None => Some(false),
    }
}

fn flag_of(value: &Blob) -> Option<bool>
    ensures { result ≡ spec.flag_in (out-Blob value.now) }
{
    match value {
        Blob::I8(number) => Some(*number != 0),
        Blob::Unspec | Blob::Array(_) | Blob::Table(_) | Blob::Str(_) => None,
        Blob::I64(_) | Blob::I32(_) | Blob::I16(_) => None,
    }
}

fn timeout_in(args: &[Attr]) -> Option<u32>
    ensures { result ≡ spec.timeout_or_usual (argument_of (codes "timeout") args.now) }
{
    match argument(args, b"timeout") {
        Some(value) => within_a_day(seconds_of(value)),
        None => Some(USUAL_TIMEOUT),
    }
}

fn within_a_day(seconds: Option<u32>) -> Option<u32>
    ensures { result ≡ spec.within_a_day seconds }
{
    let Some(seconds) = seconds else {
        return None;
    };
    if 1 <= seconds && seconds <= LONGEST_TIMEOUT {
        Some(seconds)
    } else {
        None
    }
}

fn seconds_of(value: &Blob) -> Option<u32>
    ensures { result ≡ seconds_in value.now }
{
    match value {
        Blob::I64(number) => u32::try_from(*number).ok(),
        Blob::I32(number) => u32::try_from(*number).ok(),
        Blob::I16(number) => u32::try_from(*number).ok(),
        Blob::Unspec | Blob::Array(_) | Blob::Table(_) | Blob::Str(_) | Blob::I8(_) => None,
    }
}

ghost use Rattle.std.specs.Prelude.{◌≡◌, ◌++◌, OnOk, OnErr};
ghost use Rattle.std.specs.Option.{option_copied};
ghost use Rattle.uci_text.specs.Quote.{AddsTo};
ghost use Rattle.uci_delta.specs.Print as print;
ghost use Rattle.uci_delta.specs.Shape.{HasShape};

use crate::{Change, Delta};
use plane_io::{Memory, Text};
use uci_text::quote_into;

/// Appends the delta as a line of a delta file, without a newline: a sign that tells the kind of
/// change, but none for `Set`; `PACKAGE.SECTION` or `PACKAGE.SECTION.OPTION`; and `=` with the
/// quoted value where there is one.
///
/// # Errors
///
/// `Memory` where there was not enough memory; nothing is appended then.
pub fn print_delta(out: &mut Vec<u8>, delta: &Delta) -> Result<(), Memory>
    requires { HasShape delta.now }
    ensures appended { OnOk result (out.new.items ≡ out.old.items ++ print.spelled delta.now) }
    ensures kept { OnErr result (out.new.items ≡ out.old.items) }
{
    let length = out.len();
    let appended = append_delta(out, delta);
    if appended.is_err() {
        out.truncate(length);
    }
    appended
}

fn append_delta(out: &mut Vec<u8>, delta: &Delta) -> Result<(), Memory>
    ensures appended { OnOk result (out.new.items ≡ out.old.items ++ print.spelled delta.now) }
    ensures adds { OnErr result (AddsTo out.old.items out.new.items) }
{
    out.extend_from_slice(mark_of(&delta.change))?;
    append_place(out, delta)?;
    append_value(out, &delta.change)
}

/// Appends the delta as `uci changes` shows it, without a newline: as in a delta file, but that a
/// removal alone has its sign, and that an item which comes has `+=`, and one which goes `-=`.
///
/// # Errors
///
/// `Memory` where there was not enough memory; nothing is appended then.
pub fn print_change(out: &mut Vec<u8>, delta: &Delta) -> Result<(), Memory>
    requires { HasShape delta.now }
    ensures appended { OnOk result (out.new.items ≡ out.old.items ++ print.shown delta.now) }
    ensures kept { OnErr result (out.new.items ≡ out.old.items) }
{
    let length = out.len();
    let appended = append_change(out, delta);
    if appended.is_err() {
        out.truncate(length);
    }
    appended
}

fn append_change(out: &mut Vec<u8>, delta: &Delta) -> Result<(), Memory>
    ensures appended { OnOk result (out.new.items ≡ out.old.items ++ print.shown delta.now) }
    ensures adds { OnErr result (AddsTo out.old.items out.new.items) }
{
    out.extend_from_slice(shown_mark(&delta.change))?;
    append_place(out, delta)?;
    out.extend_from_slice(shown_sign(&delta.change))?;
    append_value(out, &delta.change)
}

fn mark_of(change: &Change) -> &'static [u8]
    ensures { result.now ≡ print.mark_of change.now }
{
    match change {
        Change::Set(_) => b"",
        Change::Remove => b"-",
        Change::Add(_) => b"+",
        Change::Rename(_) => b"@",
        Change::Reorder(_) => b"^",
        Change::ListAdd(_) => b"|",
        Change::ListDel(_) => b"~",
    }
}

fn shown_mark(change: &Change) -> &'static [u8]
    ensures { result.now ≡ print.shown_mark change.now }
{
    match change {
        Change::Remove => b"-",
        _ => b"",
    }
}

fn shown_sign(change: &Change) -> &'static [u8]
    ensures { result.now ≡ print.shown_sign change.now }
{
    match change {
        Change::ListAdd(_) => b"+",
        Change::ListDel(_) => b"-",
        _ => b"",
    }
}

fn value_of(change: &Change) -> Option<&Text>
    ensures { option_copied result ≡ print.value_of change.now }
{
    match change {
        Change::Remove => None,
        Change::Set(value)
        | Change::Add(value)
        | Change::Rename(value)
        | Change::Reorder(value)
        | Change::ListAdd(value)
        | Change::ListDel(value) => Some(value),
    }
}

fn append_place(out: &mut Vec<u8>, delta: &Delta) -> Result<(), Memory>
    ensures appended { OnOk result (out.new.items ≡ out.old.items ++ print.place_text delta.now) }
    ensures adds { OnErr result (AddsTo out.old.items out.new.items) }
{
    out.extend_from_slice(delta.package.as_bytes())?;
    out.push(b'.')?;
    out.extend_from_slice(delta.section.as_bytes())?;
    if let Some(name) = &delta.option {
        out.push(b'.')?;
        out.extend_from_slice(name.as_bytes())?;
    }
    Ok(())
}

fn append_value(out: &mut Vec<u8>, change: &Change) -> Result<(), Memory>
    ensures appended { OnOk result
        (out.new.items ≡ out.old.items ++ print.value_text (print.value_of change.now)) }
    ensures adds { OnErr result (AddsTo out.old.items out.new.items) }
{
    let Some(value) = value_of(change) else {
        return Ok(());
    };
    out.push(b'=')?;
    quote_into(out, value.as_bytes())
}

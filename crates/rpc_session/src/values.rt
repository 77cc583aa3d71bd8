ghost use Rattle.std.specs.Prelude.{◌≡◌, ◌++◌, [], ◌∷◌, IfOk, OnOk};
ghost use Rattle.std.specs.Option.{option_copied};
ghost use Rattle.rpc_session.specs.Arguments.{text_of as text_in};
ghost use Rattle.rpc_session.specs.Values as spec;

use crate::arguments::{array_of, text_of};
use crate::by_name::in_order;
use blob_codec::{Attr, Blob, copy_attrs};
use plane_io::Memory;
use sqlite_items::Items;
use std::alloc::Global;
use std::slice;

/// The values with others set, in memory of their own.
pub(crate) fn with_values(
    alloc: Global,
    values: &[Attr],
    others: &[Attr],
) -> Result<Items<Attr>, Memory>
    ensures { IfOk result (λ made. made ≡ spec.with_values values.now others.now) }
{
    let mut made = copy_attrs(alloc, values)?;
    made.append(copy_attrs(alloc, others)?)?;
    in_order(alloc, made)
}

/// Adds a copy of the value at the end.
fn add_copy(alloc: Global, values: &mut Items<Attr>, attr: &Attr) -> Result<(), Memory>
    ensures { OnOk result (values.new ≡ values.old ++ attr.now ∷ []) }
{
    values.append(copy_attrs(alloc, slice::from_ref(attr))?)?;
    Ok(())
}

/// Whether the argument `keys` is not there, or an array of texts.
pub(crate) fn are_keys(keys: Option<&Blob>) -> bool
    ensures { result ≡ spec.are_keys (option_copied keys.entry) }
{
    let Some(value) = keys else {
        return true;
    };
    let Some(items) = array_of(value) else {
        return false;
    };
    are_texts(items)
}

fn are_texts(items: &[Attr]) -> bool
    ensures { result ≡ spec.are_texts items.now }
{
    for item in items {
        let Some(_) = text_of(&item.value) else {
            return false;
        };
    }
    true
}

/// Whether the argument `keys` is not there, or has the name.
fn is_asked(keys: Option<&Blob>, name: &[u8]) -> bool
    ensures { result ≡ spec.is_asked (option_copied keys.entry) name.now }
{
    let Some(value) = keys else {
        return true;
    };
    let Some(items) = array_of(value) else {
        return false;
    };
    has_key(items, name)
}

fn has_key(items: &[Attr], name: &[u8]) -> bool
    ensures { result ≡ spec.has_key items.now name.now }
{
    for item in items {
        if is_name(&item.value, name) {
            return true;
        }
    }
    false
}

fn is_name(value: &Blob, name: &[u8]) -> bool
    ensures { result ≡ spec.is_name name.now (text_in value.now) }
{
    let Some(text) = text_of(value) else {
        return false;
    };
    text == name
}

/// The values that are asked for in byte order of their names, in memory of their own.
pub(crate) fn asked_values(
    alloc: Global,
    keys: Option<&Blob>,
    values: &[Attr],
) -> Result<Items<Attr>, Memory>
    ensures { IfOk result (λ made.
        made ≡ spec.asked_values (option_copied keys.entry) values.now) }
{
    let mut made = Items::new(alloc);
    for attr in values {
        if is_asked(keys, attr.name.as_bytes()) {
            add_copy(alloc, &mut made, attr)?;
        }
    }
    in_order(alloc, made)
}

/// The values that are not asked for, in memory of their own.
pub(crate) fn other_values(
    alloc: Global,
    keys: Option<&Blob>,
    values: &[Attr],
) -> Result<Items<Attr>, Memory>
    ensures { IfOk result (λ made.
        made ≡ spec.other_values (option_copied keys.entry) values.now) }
{
    let mut made = Items::new(alloc);
    for attr in values {
        if !is_asked(keys, attr.name.as_bytes()) {
            add_copy(alloc, &mut made, attr)?;
        }
    }
    Ok(made)
}

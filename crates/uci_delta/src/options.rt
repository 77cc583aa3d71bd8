ghost use Rattle.std.specs.Prelude.{◌≡◌, [], ◌∷◌, ◌&&◌, false, IfOk, IfErr, OnOk, OnErr, Ok, Some};
ghost use Rattle.std.specs.Prelude.{None, if◌then◌else◌};
ghost use Rattle.uci_text.specs.declared.byte_class.ByteClass.TheVariants.{Name};
ghost use Rattle.uci_tree.specs.Fold as fold;
ghost use Rattle.uci_delta.specs.DeltaError.{IsRefusalOf};
ghost use Rattle.uci_delta.specs.Names as names;
ghost use Rattle.uci_delta.specs.Options as spec;

use crate::names::{is_named, is_value};
use crate::{Change, DeltaError};
use plane_io::{Items, Memory, Text};
use std::alloc::Global;
use std::mem;
use uci_text::ByteClass;
use uci_tree::{Opt, Value, option_place};

/// Changes the option of this name.
pub fn change_option(
    alloc: Global,
    options: &mut Vec<Opt>,
    name: &Text,
    change: &Change,
) -> Result<(), DeltaError>
    ensures done { OnOk result
        (spec.options_with name.now change.now options.old.items ≡ Ok options.new.items) }
    ensures refused { IfErr result
        (IsRefusalOf (spec.options_with name.now change.now options.old.items)) }
    ensures kept { OnErr result (options.new.items ≡ options.old.items) }
{
    match change {
        Change::Set(value) => set_option(options, name, value),
        Change::Remove => remove_option(options, name),
        Change::Rename(new) => rename_option(options, name, new),
        Change::ListAdd(item) => add_item(alloc, options, name, item),
        Change::ListDel(item) => delete_item(alloc, options, name, item),
        Change::Add(_) | Change::Reorder(_) => Err(DeltaError::Invalid),
    }
}

fn is_valid(name: &Text, value: &Text) -> bool
    ensures { result ≡ (names.is_name_of Name name.now && names.is_value value.now) }
{
    is_named(ByteClass::Name, name) && is_value(value)
}

fn set_option(options: &mut Vec<Opt>, name: &Text, value: &Text) -> Result<(), DeltaError>
    ensures done { OnOk result
        (spec.where_valid name.now value.now
        (Ok (fold.with_option name.now value.now options.old.items)) ≡ Ok options.new.items) }
    ensures refused { IfErr result
        (IsRefusalOf (spec.where_valid name.now value.now
        (Ok (fold.with_option name.now value.now options.old.items)))) }
    ensures kept { OnErr result (options.new.items ≡ options.old.items) }
{
    if !is_valid(name, value) {
        return Err(DeltaError::Invalid);
    }
    if value.as_bytes().is_empty() {
        let _was_there = drop_option(options, name);
        return Ok(());
    }
    let value = Value::One(value.copy()?);
    put_value(options, name, value)?;
    Ok(())
}

/// Gives the option of this name a value, or adds it at the end.
fn put_value(options: &mut Vec<Opt>, name: &Text, value: Value) -> Result<(), Memory>
    ensures done { OnOk result
        (options.new.items ≡ fold.put name.now (λ before. value) options.old.items) }
    ensures kept { OnErr result (options.new.items ≡ options.old.items) }
{
    let Some(place) = option_place(options.as_slice(), name.as_bytes()) else {
        let name = name.copy()?;
        options.push(Opt { name, value })?;
        return Ok(());
    };
    options[place].value = value;
    Ok(())
}

/// Drops the option of this name, and tells whether it was there.
fn drop_option(options: &mut Vec<Opt>, name: &Text) -> bool
    ensures there { result ≡ spec.has_option name.now options.old.items }
    ensures left { options.new.items ≡ fold.without name.now options.old.items }
    ensures kept { result ≡ false → options.new.items ≡ options.old.items }
{
    let Some(place) = option_place(options.as_slice(), name.as_bytes()) else {
        return false;
    };
    let _gone = options.remove(place);
    true
}

fn remove_option(options: &mut Vec<Opt>, name: &Text) -> Result<(), DeltaError>
    ensures done { OnOk result
        (spec.options_with name.now Change.Remove options.old.items ≡ Ok options.new.items) }
    ensures refused { IfErr result
        (IsRefusalOf (spec.options_with name.now Change.Remove options.old.items)) }
    ensures kept { OnErr result (options.new.items ≡ options.old.items) }
{
    if !drop_option(options, name) {
        return Err(DeltaError::NotFound);
    }
    Ok(())
}

fn rename_option(options: &mut Vec<Opt>, name: &Text, new: &Text) -> Result<(), DeltaError>
    ensures done { OnOk result
        (spec.option_renamed name.now new.now options.old.items ≡ Ok options.new.items) }
    ensures refused { IfErr result
        (IsRefusalOf (spec.option_renamed name.now new.now options.old.items)) }
    ensures kept { OnErr result (options.new.items ≡ options.old.items) }
{
    let Some(place) = option_place(options.as_slice(), name.as_bytes()) else {
        return Err(DeltaError::NotFound);
    };
    if !is_named(ByteClass::Name, new) {
        return Err(DeltaError::Invalid);
    }
    let None = option_place(options.as_slice(), new.as_bytes()) else {
        return Err(DeltaError::Duplicate);
    };
    let new = new.copy()?;
    options[place].name = new;
    Ok(())
}

fn add_item(
    alloc: Global,
    options: &mut Vec<Opt>,
    name: &Text,
    item: &Text,
) -> Result<(), DeltaError>
    ensures done { OnOk result
        (spec.where_valid name.now item.now
        (Ok (fold.with_item name.now item.now options.old.items)) ≡ Ok options.new.items) }
    ensures refused { IfErr result
        (IsRefusalOf (spec.where_valid name.now item.now
        (Ok (fold.with_item name.now item.now options.old.items)))) }
    ensures kept { OnErr result (options.new.items ≡ options.old.items) }
{
    if !is_valid(name, item) {
        return Err(DeltaError::Invalid);
    }
    let item = item.copy()?;
    put_item(alloc, options, name, item)?;
    Ok(())
}

/// Appends the item to the option of this name, or adds it with the item alone.
fn put_item(alloc: Global, options: &mut Vec<Opt>, name: &Text, item: Text) -> Result<(), Memory>
    ensures done { OnOk result
        (options.new.items ≡ fold.with_item name.now item options.old.items) }
    ensures kept { OnErr result (options.new.items ≡ options.old.items) }
{
    let Some(place) = option_place(options.as_slice(), name.as_bytes()) else {
        let name = name.copy()?;
        let mut items = Items::new(alloc);
        items.push(item)?;
        let value = Value::Many(items);
        options.push(Opt { name, value })?;
        return Ok(());
    };
    append_item(alloc, &mut options[place].value, item)
}

fn append_item(alloc: Global, value: &mut Value, item: Text) -> Result<(), Memory>
    ensures done { OnOk result (value.new ≡ fold.appended item (Some value.old)) }
    ensures kept { OnErr result (value.new ≡ value.old) }
{
    match value {
        Value::Many(items) => items.push(item),
        Value::One(first) => {
            let mut items = Items::new(alloc);
            items.push(first.copy()?)?;
            items.push(item)?;
            *value = Value::Many(items);
            Ok(())
        }
    }
}

fn delete_item(
    alloc: Global,
    options: &mut Vec<Opt>,
    name: &Text,
    item: &Text,
) -> Result<(), DeltaError>
    ensures done { OnOk result
        (spec.where_valid name.now item.now
        (spec.without_item name.now item.now options.old.items) ≡ Ok options.new.items) }
    ensures refused { IfErr result
        (IsRefusalOf (spec.where_valid name.now item.now
        (spec.without_item name.now item.now options.old.items))) }
    ensures kept { OnErr result (options.new.items ≡ options.old.items) }
{
    if !is_valid(name, item) {
        return Err(DeltaError::Invalid);
    }
    let Some(place) = option_place(options.as_slice(), name.as_bytes()) else {
        return Ok(());
    };
    if delete_equal(alloc, &mut options[place].value, item) {
        let _emptied = options.remove(place);
    }
    Ok(())
}

/// Deletes the items that are equal, and tells whether nothing is left; one value is a list of one.
fn delete_equal(alloc: Global, value: &mut Value, item: &Text) -> bool
    ensures { spec.left_of item.now value.old ≡ (if result then None else Some value.new) }
{
    match value {
        Value::One(text) => text.as_bytes() == item.as_bytes(),
        Value::Many(items) => {
            let mut left = mem::replace(items, Items::new(alloc)).into_vec();
            left.retain(|other| other.as_bytes() != item.as_bytes());
            let is_empty = left.is_empty();
            *items = Items::from_vec(left);
            is_empty
        }
    }
}

ghost use Rattle.std.specs.Prelude.{◌≡◌, ◌++◌, ◌<◌, ◌^◌, Ok, IfOk, IfErr, OnOk, map};
ghost use Rattle.std.specs.Option.{option_copied, ForSome};
ghost use Rattle.rpc_session.specs.Description as description;
ghost use Rattle.rpc_session.specs.Serve.{truth as truth_of};
ghost use Rattle.rpc_rules.specs.Status.{IsStatusOf};
ghost use Rattle.rpc_rules.specs.Told as spec;

use crate::by_name::by_name;
use crate::rpc_error::{NOT_FOUND, RpcError};
use blob_codec::{Attr, Blob};
use plane_io::{Memory, Text};
use rpc_session::text_argument;
use sqlite_items::Items;
use std::alloc::Global;
use uci_tree::{Opt, Package, Section, Value};

/// The package, the section or the option that the arguments name.
///
/// # Errors
///
/// Status 4 where the section or the option is not there.
pub fn get_told(alloc: Global, args: &[Attr], tree: &Package) -> Result<Items<Attr>, RpcError>
    ensures done { IfOk result (λ told. spec.get_told args.now tree.now ≡ Ok told) }
    ensures refused { IfErr result (IsStatusOf (spec.get_told args.now tree.now)) }
{
    let Some(name) = text_argument(args, b"section") else {
        return Ok(values_told(alloc, package_values(alloc, tree)?)?);
    };
    let Some(section) = section_of(tree.sections.as_slice(), name) else {
        return Err(RpcError::Status(NOT_FOUND));
    };
    let Some(name) = text_argument(args, b"option") else {
        return Ok(values_told(alloc, section_values(alloc, None, section)?)?);
    };
    option_told(alloc, option_of(section.options.as_slice(), name))
}

fn option_told(alloc: Global, option: Option<&Opt>) -> Result<Items<Attr>, RpcError>
    ensures done { IfOk result (λ told. spec.option_told (option_copied option.entry) ≡ Ok told) }
    ensures refused { IfErr result (IsStatusOf (spec.option_told (option_copied option.entry))) }
{
    let Some(option) = option else {
        return Err(RpcError::Status(NOT_FOUND));
    };
    let mut told = Items::new(alloc);
    told.push(named(alloc, b"value", value_blob(alloc, &option.value)?)?)?;
    Ok(told)
}

fn values_told(alloc: Global, values: Items<Attr>) -> Result<Items<Attr>, Memory>
    ensures { IfOk result (λ told. told ≡ spec.values_told values) }
{
    let mut told = Items::new(alloc);
    told.push(named(alloc, b"values", Blob::Table(values))?)?;
    Ok(told)
}

/// The names of the packages.
pub fn configs_told(alloc: Global, names: &[Text]) -> Result<Items<Attr>, Memory>
    ensures { IfOk result (λ told. told ≡ spec.configs_told names.now) }
{
    let mut told = Items::new(alloc);
    told.push(named(alloc, b"configs", text_array(alloc, names)?)?)?;
    Ok(told)
}

/// The first section of the name.
pub(crate) fn section_of<'a>(sections: &'a [Section], name: &[u8]) -> Option<&'a Section>
    ensures { option_copied result ≡ spec.section_of name.now sections.now }
{
    sections
        .iter()
        .find(|section| section.name.as_bytes() == name)
}

/// The first option of the name.
pub(crate) fn option_of<'a>(options: &'a [Opt], name: &[u8]) -> Option<&'a Opt>
    ensures { option_copied result ≡ spec.option_of name.now options.now }
{
    options.iter().find(|option| option.name.as_bytes() == name)
}

/// A value by name.
pub(crate) fn named(alloc: Global, name: &[u8], value: Blob) -> Result<Attr, Memory>
    ensures { IfOk result (λ attr. attr ≡ description.named name.now value) }
{
    let name = Text::from_bytes(alloc, name)?;
    Ok(Attr { name, value })
}

/// A text without a name.
pub(crate) fn text_item(alloc: Global, text: &Text) -> Result<Attr, Memory>
    ensures { IfOk result (λ attr. attr ≡ spec.text_item text.now) }
{
    named(alloc, b"", Blob::Str(text.copy()?))
}

pub(crate) fn text_array(alloc: Global, texts: &[Text]) -> Result<Blob, Memory>
    ensures { IfOk result (λ value. value ≡ spec.text_array texts.now) }
{
    let mut items = Items::new(alloc);
    for text in texts {
        items.push(text_item(alloc, text)?)?;
    }
    Ok(Blob::Array(items))
}

fn value_blob(alloc: Global, value: &Value) -> Result<Blob, Memory>
    ensures { IfOk result (λ blob. blob ≡ spec.value_blob value.now) }
{
    match value {
        Value::One(text) => Ok(Blob::Str(text.copy()?)),
        Value::Many(items) => text_array(alloc, items.as_slice()),
    }
}

fn option_values(alloc: Global, options: &[Opt]) -> Result<Vec<Attr>, Memory>
    ensures { IfOk result (λ values. values.items ≡ map spec.option_value options.now) }
{
    let mut values = Vec::new(alloc);
    for option in options {
        let value = value_blob(alloc, &option.value)?;
        values.push(named(alloc, option.name.as_bytes(), value)?)?;
    }
    Ok(values)
}

/// A section: whether it is anonymous, its place where it is told, its name, its type, and its
/// options in byte order.
fn section_values(
    alloc: Global,
    place: Option<usize>,
    section: &Section,
) -> Result<Items<Attr>, Memory>
    requires { ForSome place (λ n. n < 2 ^ 63) }
    ensures { IfOk result (λ values. values ≡ spec.section_values place section.now) }
{
    let options = by_name(option_values(alloc, section.options.as_slice())?)?;
    let mut values = Items::new(alloc);
    values.push(named(alloc, b".anonymous", truth(section.anonymous))?)?;
    add_place(alloc, &mut values, place)?;
    values.push(named(alloc, b".name", Blob::Str(section.name.copy()?))?)?;
    values.push(named(alloc, b".type", Blob::Str(section.kind.copy()?))?)?;
    values.append(Items::from_vec(options))?;
    Ok(values)
}

fn add_place(alloc: Global, values: &mut Items<Attr>, place: Option<usize>) -> Result<(), Memory>
    requires { ForSome place (λ n. n < 2 ^ 63) }
    ensures { OnOk result (values.new ≡ values.old ++ spec.place_values place) }
{
    let Some(place) = place else {
        return Ok(());
    };
    values.push(named(alloc, b".index", number(place))?)?;
    Ok(())
}

/// A package: its sections in byte order of their names, each with its place.
fn package_values(alloc: Global, tree: &Package) -> Result<Items<Attr>, Memory>
    ensures { IfOk result (λ values. values ≡ spec.package_values tree.now) }
{
    let sections = tree.sections.as_slice();
    let mut values = Vec::new(alloc);
    for (place, section) in sections.iter().enumerate() {
        let parts = section_values(alloc, Some(place), section)?;
        values.push(named(alloc, section.name.as_bytes(), Blob::Table(parts))?)?;
    }
    Ok(Items::from_vec(by_name(values)?))
}

fn truth(value: bool) -> Blob
    ensures { result ≡ truth_of value }
{
    Blob::I8(i8::from(value))
}

/// A number, of 32 bits where it fits.
fn number(number: usize) -> Blob
    requires { number < 2 ^ 63 }
    ensures { result ≡ description.number number }
{
    match i32::try_from(number) {
        Ok(small) => Blob::I32(small),
        Err(_) => Blob::I64(number as i64),
    }
}

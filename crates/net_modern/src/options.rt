ghost use Rattle.std.specs.Prelude.{◌≡◌, ◌++◌, ◌∷◌, [], Some, IfOk, OnOk};
ghost use Rattle.std.specs.Option.{option_copied};
ghost use Rattle.uci_tree.specs.declared.package.Value.TheVariants.{One};
ghost use Rattle.net_rows.specs.Options as by_name;
ghost use Rattle.net_modern.specs.Options as spec;

use net_rows::{is_given, text_of, value_of, words_of};
use plane_io::{Items, Memory, Text};
use std::alloc::Global;
use uci_tree::{Opt, Value, option_place};

/// Whether the option of the name is this text.
pub fn has_text(options: &[Opt], name: &[u8], text: &[u8]) -> bool
    ensures { result ≡ spec.has_text name.now text.now options.now }
{
    match text_of(options, name) {
        Some(other) => other == text,
        None => false,
    }
}

/// The words of `ifname`: of a text, or of all items of a list.
pub fn ifname_words(alloc: Global, options: &[Opt]) -> Result<Items<Text>, Memory>
    ensures { IfOk result (λ words. words ≡ spec.ifname_words options.now) }
{
    match value_of(options, b"ifname") {
        Some(value) => words_of(alloc, value),
        None => Ok(Items::new(alloc)),
    }
}

/// Makes the words of `ifname` the last option, `ports`, unless it is there or there is no word;
/// takes `ifname` out.
pub fn put_ports(alloc: Global, options: &mut Vec<Opt>) -> Result<(), Memory>
    ensures { OnOk result (options.new.items ≡ spec.with_ports options.old.items) }
{
    let has_ports = is_given(options.as_slice(), b"ports");
    let words = ifname_words(alloc, options.as_slice())?;
    take_out(options, b"ifname");
    if has_ports {
        return Ok(());
    }
    push_list(alloc, options, b"ports", words)
}

/// Makes the first word of `ifname` the last option, `device`; takes `ifname` out.
pub fn put_device(alloc: Global, options: &mut Vec<Opt>) -> Result<(), Memory>
    ensures { OnOk result (options.new.items ≡ spec.on_device options.old.items) }
{
    let words = ifname_words(alloc, options.as_slice())?;
    take_out(options, b"ifname");
    match words.as_slice().first() {
        Some(word) => push_text(alloc, options, b"device", word.as_bytes()),
        None => Ok(()),
    }
}

/// Makes the bridge the last option of an interface, `device`, and takes out what is the bridge's.
/// Gives the options of the bridge.
pub fn move_to_bridge(
    alloc: Global,
    options: &mut Vec<Opt>,
    bridge: &[u8],
) -> Result<Vec<Opt>, Memory>
    ensures interface { OnOk result
        (options.new.items ≡ spec.on_bridge bridge.now options.old.items) }
    ensures bridge { IfOk result
        (λ moved. moved.items ≡ spec.of_bridge bridge.now options.old.items) }
{
    let mut moved = Vec::new(alloc);
    push_text(alloc, &mut moved, b"name", bridge)?;
    push_text(alloc, &mut moved, b"type", b"bridge")?;
    let words = ifname_words(alloc, options.as_slice())?;
    push_list(alloc, &mut moved, b"ports", words)?;
    move_option(alloc, options, &mut moved, b"bridge_empty")?;
    move_option(alloc, options, &mut moved, b"mtu")?;
    move_option(alloc, options, &mut moved, b"macaddr")?;
    take_out(options, b"ifname");
    take_out(options, b"type");
    push_text(alloc, options, b"device", bridge)?;
    Ok(moved)
}

/// Takes all options of the name out.
pub fn take_out(options: &mut Vec<Opt>, name: &[u8])
    ensures { options.new.items ≡ spec.without name.now options.old.items }
{
    options.retain(|option| option.name.as_bytes() != name);
}

fn push_option(
    alloc: Global,
    options: &mut Vec<Opt>,
    name: &[u8],
    value: Value,
) -> Result<(), Memory>
    ensures { OnOk result
        (options.new.items ≡ options.old.items ++ spec.option_if name.now (Some value)) }
{
    let name = Text::from_bytes(alloc, name)?;
    options.push(Opt { name, value })?;
    Ok(())
}

fn push_text(alloc: Global, options: &mut Vec<Opt>, name: &[u8], text: &[u8]) -> Result<(), Memory>
    ensures { OnOk result
        (options.new.items ≡ options.old.items ++ spec.text_option name.now text.now) }
{
    let text = Text::from_bytes(alloc, text)?;
    push_option(alloc, options, name, Value::One(text))
}

// Adds words as a list, where there is one.
fn push_list(
    alloc: Global,
    options: &mut Vec<Opt>,
    name: &[u8],
    words: Items<Text>,
) -> Result<(), Memory>
    ensures { OnOk result
        (options.new.items ≡ options.old.items ++ spec.option_if name.now (spec.list_if words)) }
{
    if words.as_slice().is_empty() {
        return Ok(());
    }
    push_option(alloc, options, name, Value::Many(words))
}

// Moves the first option of the name to the end of others, and drops the other options of the name.
fn move_option(
    alloc: Global,
    from: &mut Vec<Opt>,
    into: &mut Vec<Opt>,
    name: &[u8],
) -> Result<(), Memory>
    ensures from { OnOk result (from.new.items ≡ spec.without name.now from.old.items) }
    ensures into { OnOk result
        (into.new.items ≡ into.old.items ++ spec.moved name.now from.old.items) }
{
    let Some(place) = option_place(from.as_slice(), name) else {
        return Ok(());
    };
    let option = from.remove(place);
    push_option(alloc, into, name, option.value)?;
    take_out(from, name);
    Ok(())
}

ghost use Rattle.std.specs.Prelude.{◌≡◌, List, IfOk, OnOk};
ghost use Rattle.plane_words.specs.InOrder.{put_in};
ghost use Rattle.uci_tree.specs.declared.package.Opt.{Opt};
ghost use Rattle.net_rules.specs.Need as spec;
ghost use Rattle.net_after.specs.ByName.{IsByName};

use net_copies::copy_option;
use plane_io::{Items, Memory, Text};
use std::alloc::Global;
use std::collections::BTreeMap;
use uci_tree::Opt;

/// The options in byte order of their names. Of one name the last counts.
pub fn in_order(alloc: Global, options: &[Opt]) -> Result<Items<Opt>, Memory>
    ensures { IfOk result (λ ordered. ordered ≡ spec.in_order options.now) }
{
    let by_name = options_by_name(alloc, options)?;
    let mut ordered = Items::new(alloc);
    for option in by_name.into_values() {
        ordered.push(option)?;
    }
    Ok(ordered)
}

fn options_by_name(alloc: Global, options: &[Opt]) -> Result<BTreeMap<Text, Opt>, Memory>
    ensures { IfOk result (λ by_name. IsByName (spec.in_order options.now) by_name) }
{
    let mut by_name = BTreeMap::new(alloc);
    for place in (0..options.len()).rev() {
        note_option(alloc, &mut by_name, &options[place])?;
    }
    Ok(by_name)
}

// Adds an option whose name has none. Those that are there stand behind it.
fn note_option(alloc: Global, by_name: &mut BTreeMap<Text, Opt>, option: &Opt) -> Result<(), Memory>
    ensures { (later : List Opt) → IsByName later by_name.old
        → OnOk result (IsByName (put_in spec.option_cmp option.now later) by_name.new) }
{
    if by_name.contains_key(&option.name) {
        return Ok(());
    }
    let name = option.name.copy()?;
    let _none = by_name.insert(name, copy_option(alloc, option)?)?;
    Ok(())
}

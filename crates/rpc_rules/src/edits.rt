ghost use Rattle.std.specs.Prelude.{◌≡◌, Ok, OnOk, IfOk, IfErr};
ghost use Rattle.std.specs.Option.{option_copied};
ghost use Rattle.rpc_rules.specs.Status.{IsStatusOf};
ghost use Rattle.rpc_rules.specs.Edits as spec;

use crate::arguments::{values_argument, values_or_none};
use crate::method::Edit;
use crate::plan::{Plan, delta_of};
use crate::rpc_error::{BAD_ARGUMENT, NOT_FOUND, RpcError};
use crate::told::{named, section_of};
use blob_codec::{Attr, Blob};
use plane_io::{Memory, Text};
use rpc_session::{array_argument, text_argument, text_of};
use sqlite_items::Items;
use std::alloc::Global;
use uci_delta::Change;
use uci_tree::{Package, anonymous_name};

/// What a call is to stage of the package of that name, which its holder sees so. Each change is
/// tried on it; where one is refused none is to be staged.
///
/// # Errors
///
/// Status 4 where a section or an option that is named is not there. Status 2 where an argument is
/// not of its form, a name, a type or a value is none, or a new name is there.
pub fn planned(
    alloc: Global,
    edit: Edit,
    name: &[u8],
    args: &[Attr],
    tree: Package,
) -> Result<Plan, RpcError>
    ensures done { IfOk result (λ plan. spec.planned edit name.now args.now tree ≡ Ok plan) }
    ensures refused { IfErr result (IsStatusOf (spec.planned edit name.now args.now tree)) }
{
    match edit {
        Edit::Add => add_planned(alloc, name, args, tree),
        Edit::Set => set_planned(alloc, name, args, tree),
        Edit::Delete => delete_planned(alloc, name, args, tree),
        Edit::Rename => rename_planned(alloc, name, args, tree),
        Edit::Order => order_planned(alloc, name, args, tree),
    }
}

/// A section comes, or is set to a type where it has a name, and then gets its values.
fn add_planned(alloc: Global, name: &[u8], args: &[Attr], tree: Package) -> Result<Plan, RpcError>
    ensures done { IfOk result (λ plan. spec.add_planned name.now args.now tree ≡ Ok plan) }
    ensures refused { IfErr result (IsStatusOf (spec.add_planned name.now args.now tree)) }
{
    let Some(kind) = text_argument(args, b"type") else {
        return Err(RpcError::Status(BAD_ARGUMENT));
    };
    let given = text_argument(args, b"name");
    let section = new_name(alloc, given, kind, &tree)?;
    let change = new_change(alloc, given, kind)?;
    added_as(alloc, name, section, change, values_or_none(args), tree)
}

#[tactic(auto, using(crate::proofs::StatusLemmas::status_then))]
fn added_as(
    alloc: Global,
    name: &[u8],
    section: Text,
    change: Change,
    values: &[Attr],
    tree: Package,
) -> Result<Plan, RpcError>
    ensures done { IfOk result (λ plan.
        spec.added_as name.now section change values.now tree ≡ Ok plan) }
    ensures refused { IfErr result
        (IsStatusOf (spec.added_as name.now section change values.now tree)) }
{
    let mut plan = Plan::start(alloc, tree);
    let delta = delta_of(alloc, name, section.as_bytes(), None, change)?;
    match plan.take(alloc, delta) {
        Ok(()) => {}
        Err(error) => return Err(error),
    }
    match plan.take_values(alloc, name, section.as_bytes(), values) {
        Ok(()) => {}
        Err(error) => return Err(error),
    }
    plan.told = name_told(alloc, section)?;
    Ok(plan)
}

/// The name of the new section.
fn name_told(alloc: Global, section: Text) -> Result<Items<Attr>, Memory>
    ensures { IfOk result (λ told. told ≡ spec.name_told section) }
{
    let mut told = Items::new(alloc);
    told.push(named(alloc, b"section", Blob::Str(section))?)?;
    Ok(told)
}

/// The name of the new section: the one that is given, or that of an anonymous section.
fn new_name(
    alloc: Global,
    given: Option<&[u8]>,
    kind: &[u8],
    tree: &Package,
) -> Result<Text, Memory>
    ensures { IfOk result (λ name.
        name ≡ spec.new_name (option_copied given.entry) kind.now tree.now) }
{
    match given {
        Some(name) => Text::from_bytes(alloc, name),
        None => anonymous_name(alloc, tree.made.saturating_add(1), kind),
    }
}

fn new_change(alloc: Global, given: Option<&[u8]>, kind: &[u8]) -> Result<Change, Memory>
    ensures { IfOk result (λ change.
        change ≡ spec.new_change (option_copied given.entry) kind.now) }
{
    let kind = Text::from_bytes(alloc, kind)?;
    match given {
        Some(_) => Ok(Change::Set(kind)),
        None => Ok(Change::Add(kind)),
    }
}

/// A section that is there gets values.
fn set_planned(alloc: Global, name: &[u8], args: &[Attr], tree: Package) -> Result<Plan, RpcError>
    ensures done { IfOk result (λ plan. spec.set_planned name.now args.now tree ≡ Ok plan) }
    ensures refused { IfErr result (IsStatusOf (spec.set_planned name.now args.now tree)) }
{
    let Some(section) = text_argument(args, b"section") else {
        return Err(RpcError::Status(BAD_ARGUMENT));
    };
    let Some(values) = values_argument(args) else {
        return Err(RpcError::Status(BAD_ARGUMENT));
    };
    let Some(_) = section_of(tree.sections.as_slice(), section) else {
        return Err(RpcError::Status(NOT_FOUND));
    };
    let mut plan = Plan::start(alloc, tree);
    match plan.take_values(alloc, name, section, values) {
        Ok(()) => Ok(plan),
        Err(error) => Err(error),
    }
}

/// A section or an option goes.
fn delete_planned(
    alloc: Global,
    name: &[u8],
    args: &[Attr],
    tree: Package,
) -> Result<Plan, RpcError>
    ensures done { IfOk result (λ plan. spec.delete_planned name.now args.now tree ≡ Ok plan) }
    ensures refused { IfErr result (IsStatusOf (spec.delete_planned name.now args.now tree)) }
{
    let Some(section) = text_argument(args, b"section") else {
        return Err(RpcError::Status(BAD_ARGUMENT));
    };
    let option = text_argument(args, b"option");
    let mut plan = Plan::start(alloc, tree);
    let delta = delta_of(alloc, name, section, option, Change::Remove)?;
    match plan.take(alloc, delta) {
        Ok(()) => Ok(plan),
        Err(error) => Err(error),
    }
}

/// A section or an option gets another name.
fn rename_planned(
    alloc: Global,
    name: &[u8],
    args: &[Attr],
    tree: Package,
) -> Result<Plan, RpcError>
    ensures done { IfOk result (λ plan. spec.rename_planned name.now args.now tree ≡ Ok plan) }
    ensures refused { IfErr result (IsStatusOf (spec.rename_planned name.now args.now tree)) }
{
    let Some(section) = text_argument(args, b"section") else {
        return Err(RpcError::Status(BAD_ARGUMENT));
    };
    let option = text_argument(args, b"option");
    let Some(new) = text_argument(args, b"name") else {
        return Err(RpcError::Status(BAD_ARGUMENT));
    };
    let change = Change::Rename(Text::from_bytes(alloc, new)?);
    let mut plan = Plan::start(alloc, tree);
    let delta = delta_of(alloc, name, section, option, change)?;
    match plan.take(alloc, delta) {
        Ok(()) => Ok(plan),
        Err(error) => Err(error),
    }
}

/// Each listed section moves to its place.
fn order_planned(alloc: Global, name: &[u8], args: &[Attr], tree: Package) -> Result<Plan, RpcError>
    ensures done { IfOk result (λ plan. spec.order_planned name.now args.now tree ≡ Ok plan) }
    ensures refused { IfErr result (IsStatusOf (spec.order_planned name.now args.now tree)) }
{
    let Some(items) = array_argument(args, b"sections") else {
        return Err(RpcError::Status(BAD_ARGUMENT));
    };
    let mut plan = Plan::start(alloc, tree);
    match take_moves(alloc, &mut plan, name, items) {
        Ok(()) => Ok(plan),
        Err(error) => Err(error),
    }
}

#[tactic(auto, using(crate::proofs::StatusLemmas::status_then))]
fn take_moves(alloc: Global, plan: &mut Plan, name: &[u8], items: &[Attr]) -> Result<(), RpcError>
    ensures done { OnOk result (spec.moves_taken name.now 0 items.now plan.old ≡ Ok plan.new) }
    ensures refused { IfErr result (IsStatusOf (spec.moves_taken name.now 0 items.now plan.old)) }
{
    for (place, item) in items.iter().enumerate() {
        match take_move(alloc, plan, name, place, text_of(&item.value)) {
            Ok(()) => {}
            Err(error) => return Err(error),
        }
    }
    Ok(())
}

fn take_move(
    alloc: Global,
    plan: &mut Plan,
    name: &[u8],
    place: usize,
    section: Option<&[u8]>,
) -> Result<(), RpcError>
    ensures done { OnOk result
        (spec.move_taken name.now place (option_copied section.entry) plan.old ≡ Ok plan.new) }
    ensures refused { IfErr result
        (IsStatusOf (spec.move_taken name.now place (option_copied section.entry) plan.old)) }
{
    let Some(section) = section else {
        return Err(RpcError::Status(BAD_ARGUMENT));
    };
    let place = format!(in alloc; "{place}")?;
    let change = Change::Reorder(Text::from_vec(place.into_bytes()));
    plan.take(alloc, delta_of(alloc, name, section, None, change)?)
}

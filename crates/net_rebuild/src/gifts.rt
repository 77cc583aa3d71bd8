//! Places for all that interfaces may come to give.
ghost use Rattle.std.specs.Prelude.{◌≡◌, ◌^◌, ℕ, List, length, nat_le, true, OnOk, IfOk};
ghost use Rattle.std.specs.Option.{option_copied};
ghost use Rattle.kern_model.specs.declared.object.Object.{Object};
ghost use Rattle.net_rules.specs.declared.inputs.Inputs.{Inputs};
ghost use Rattle.net_rules.specs.Interfaces as interfaces;
ghost use Rattle.net_rules.specs.Want.{given_by, given_on, of_answer};
ghost use Rattle.net_rules.specs.Inputs.{facts_of};
ghost use Rattle.net_view.specs.Levels.{AreLevelsOf};
ghost use Rattle.net_reach.specs.Reach.{IsReachOf};
ghost use Rattle.given_objects.specs.Gifts.{givers_of, held_of};
ghost use Rattle.gift_places.specs.Expecting.{HasMorePlaces};
ghost use Rattle.net_gifts.specs.Giving.{HavePlaces};
ghost use Rattle.net_follow.specs.Counted.{HasGiftRoom};
ghost use Rattle.net_follow.specs.Counted as counted;
ghost use Rattle.net_rebuild.specs.Rebuild.{AreFewRows};
ghost use Rattle.net_rebuild.specs.Room.{GivesFew, HasRowRoom};

use gift_places::{MOST_GIVEN, expect_given, gives_few, held_alone};
use given_objects::GivenObjects;
use kern_model::DevName;
use net_reach::Reach;
use net_rows::InterfaceRow;
use net_rules::{Answer, Inputs};
use net_view::{Levels, asks_nothing};
use plane_io::Memory;
use std::alloc::Global;

/// What is held of gifts, and nobody gives it, with a place for all that interfaces may come to
/// give.
pub(crate) fn expected(
    alloc: Global,
    gifts: &GivenObjects,
    inputs: &Inputs,
    levels: &Levels,
    reach: &Reach,
) -> Result<GivenObjects, Memory>
    requires levels { AreLevelsOf inputs.now levels.now }
    requires reach { IsReachOf inputs.now reach.now }
    requires few { AreFewRows inputs.now.conf }
    ensures held { IfOk result (λ made. held_of made ≡ held_of gifts.now) }
    ensures none { IfOk result (λ made. (o : Object) → givers_of made o ≡ 0) }
    ensures room { IfOk result (HasGiftRoom inputs.now) }
{
    let mut made = held_alone(alloc, gifts)?;
    let rows = inputs.conf.interfaces.as_slice();
    expect_all(&mut made, inputs, levels, reach, rows)?;
    Ok(made)
}

// Places for what all interfaces give.
fn expect_all(
    gifts: &mut GivenObjects,
    inputs: &Inputs,
    levels: &Levels,
    reach: &Reach,
    rows: &[InterfaceRow],
) -> Result<(), Memory>
    requires levels { AreLevelsOf inputs.now levels.now }
    requires reach { IsReachOf inputs.now reach.now }
    requires few { AreFewRows inputs.now.conf }
    requires rows { rows.now ≡ inputs.now.conf.interfaces }
    ensures room { OnOk result (HasGiftRoom inputs.now gifts.new) }
    ensures more { OnOk result (HasMorePlaces gifts.old gifts.new) }
{
    for row in rows {
        expect_row(gifts, inputs, levels, reach, row)?;
    }
    Ok(())
}

// Places for what the interface of a row gives once it is up, where it needs no further answer for
// that.
fn expect_row(
    gifts: &mut GivenObjects,
    inputs: &Inputs,
    levels: &Levels,
    reach: &Reach,
    row: &InterfaceRow,
) -> Result<(), Memory>
    requires levels { AreLevelsOf inputs.now levels.now }
    requires reach { IsReachOf inputs.now reach.now }
    requires few { AreFewRows inputs.now.conf }
    ensures room { OnOk result (HasRowRoom inputs.now row.now gifts.new) }
    ensures more { OnOk result (HasMorePlaces gifts.old gifts.new) }
{
    if !is_few(row, levels.answer_of(inputs, row)) {
        return Err(Memory);
    }
    if !needs_no_answer(row, levels.answer_of(inputs, row)) {
        return Ok(());
    }
    expect_l3_device(gifts, inputs, levels, reach, row)
}

// Whether a row gives few by its options, and by an answer.
fn is_few(row: &InterfaceRow, answer: Option<&Answer>) -> bool
    ensures { result ≡ true → GivesFew row.now (option_copied answer.entry) }
{
    gives_few(row) & tells_few(answer)
}

// Whether an answer tells no more than `MOST_GIVEN` addresses and routes.
fn tells_few(answer: Option<&Answer>) -> bool
    ensures { (dev : List ℕ) → result
        ≡ nat_le (length (of_answer dev (option_copied answer.entry))) (2 ^ 49) }
{
    match answer {
        Some(answer) => {
            answer.addresses.as_slice().len() + answer.routes.as_slice().len() <= MOST_GIVEN
        }
        None => true,
    }
}

// Whether an interface may come to be up without a further answer.
fn needs_no_answer(row: &InterfaceRow, answer: Option<&Answer>) -> bool
    ensures { (inputs : Inputs) → option_copied answer.entry
        ≡ interfaces.answer_of (facts_of inputs) row.now
        → result ≡ counted.needs_no_answer (facts_of inputs) row.now }
{
    asks_nothing(&row.proto) | answer.is_some()
}

// Places for what the interface of a row gives on its layer-3 device, if it has one.
fn expect_l3_device(
    gifts: &mut GivenObjects,
    inputs: &Inputs,
    levels: &Levels,
    reach: &Reach,
    row: &InterfaceRow,
) -> Result<(), Memory>
    requires levels { AreLevelsOf inputs.now levels.now }
    requires reach { IsReachOf inputs.now reach.now }
    ensures places { OnOk result (HavePlaces gifts.new (given_by (facts_of inputs.now) row.now
        (interfaces.l3_device_of (facts_of inputs.now) row.now))) }
    ensures more { OnOk result (HasMorePlaces gifts.old gifts.new) }
{
    match levels.l3_device_of(inputs, row) {
        Some(l3_device) => expect_on(gifts, inputs, levels, reach, row, &l3_device),
        None => Ok(()),
    }
}

// Places for what the interface of a row gives on a device.
fn expect_on(
    gifts: &mut GivenObjects,
    inputs: &Inputs,
    levels: &Levels,
    reach: &Reach,
    row: &InterfaceRow,
    dev: &DevName,
) -> Result<(), Memory>
    requires levels { AreLevelsOf inputs.now levels.now }
    requires reach { IsReachOf inputs.now reach.now }
    ensures places { OnOk result
        (HavePlaces gifts.new (given_on (facts_of inputs.now) row.now dev.now)) }
    ensures more { OnOk result (HasMorePlaces gifts.old gifts.new) }
{
    let answer = levels.answer_of(inputs, row);
    let routes = inputs.conf.routes.as_slice();
    let places = reach.routes_of(&row.name);
    expect_given(gifts, row, answer, routes, places, dev)
}

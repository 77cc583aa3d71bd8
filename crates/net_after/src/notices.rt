ghost use Rattle.std.specs.Prelude.{◌≡◌, ◌++◌, ◌==◌, ℕ, List, map, filter, not, nat_le};
ghost use Rattle.std.specs.Prelude.{if◌then◌else◌, unwrap_or, IfOk, OnOk};
ghost use Rattle.std.specs.List.{list_any};
ghost use Rattle.std.specs.Ordering.{nat_cmp};
ghost use Rattle.std.specs.BTreeSet.{contains, insert_key};
ghost use Rattle.plane_words.specs.InOrder.{ordered};
ghost use Rattle.net_rules.specs.declared.inputs.Inputs.{Inputs};
ghost use Rattle.net_rules.specs.Notices as spec;
ghost use Rattle.net_view.specs.Places.{HasPlaces, place_of};
ghost use Rattle.net_after.specs.NumberSet.{HasNumbers};

use crate::places::radio_places;
use net_rows::Conf;
use net_rules::{Inputs, Notice, OpenInterface, OpenRadio};
use net_view::interface_places;
use plane_io::{Items, Memory, Text};
use std::alloc::Global;
use std::collections::{BTreeMap, BTreeSet};

/// The numbers of the open requests, those of interfaces first.
pub fn numbers_of(alloc: Global, inputs: &Inputs) -> Result<Items<u64>, Memory>
    ensures { IfOk result (λ numbers. numbers ≡ spec.numbers_of inputs.now) }
{
    let mut numbers = Items::new(alloc);
    add_interface_numbers(&mut numbers, inputs.interfaces.as_slice())?;
    add_radio_numbers(&mut numbers, inputs.radios.as_slice())?;
    Ok(numbers)
}

fn add_interface_numbers(numbers: &mut Items<u64>, current: &[OpenInterface]) -> Result<(), Memory>
    ensures { OnOk result (numbers.new ≡ numbers.old ++ map (λ o. o.number) current.now) }
{
    for asked in current {
        numbers.push(asked.number)?;
    }
    Ok(())
}

fn add_radio_numbers(numbers: &mut Items<u64>, current: &[OpenRadio]) -> Result<(), Memory>
    ensures { OnOk result (numbers.new ≡ numbers.old ++ map (λ o. o.number) current.now) }
{
    for asked in current {
        numbers.push(asked.number)?;
    }
    Ok(())
}

/// What is told of requests between two moments. Of the first one the numbers of its open requests
/// are given, and its next number.
pub fn notices_between(
    alloc: Global,
    numbers: &[u64],
    next: u64,
    now: &Inputs,
) -> Result<Items<Notice>, Memory>
    ensures { (before : Inputs) → numbers.now ≡ spec.numbers_of before → next ≡ before.next
        → IfOk result (λ notices. notices ≡ spec.notices_between before now.now) }
{
    let lost = lost_between(alloc, numbers, now)?;
    let mut notices = Items::new(alloc);
    for number in lost {
        notices.push(Notice::Dropped { number })?;
    }
    add_interfaces(
        alloc,
        &mut notices,
        next,
        &now.conf,
        now.interfaces.as_slice(),
    )?;
    add_radios(alloc, &mut notices, next, &now.conf, now.radios.as_slice())?;
    Ok(notices)
}

// The numbers that are no longer among the open ones.
fn lost_between(alloc: Global, before: &[u64], now: &Inputs) -> Result<BTreeSet<u64>, Memory>
    ensures { IfOk result (λ lost. lost.keys ≡ ordered nat_cmp
        (filter (λ n. not (list_any (λ m. m == n) (spec.numbers_of now.now))) before.now)) }
{
    let current = numbers_of(alloc, now)?;
    let still_open = number_set(alloc, current.as_slice())?;
    lost_numbers(alloc, before, &still_open)
}

fn number_set(alloc: Global, numbers: &[u64]) -> Result<BTreeSet<u64>, Memory>
    ensures { IfOk result (λ set. HasNumbers numbers.now set) }
{
    let mut set = BTreeSet::new(alloc);
    for number in numbers {
        let _added = set.insert(*number)?;
    }
    Ok(set)
}

fn lost_numbers(
    alloc: Global,
    before: &[u64],
    current: &BTreeSet<u64>,
) -> Result<BTreeSet<u64>, Memory>
    ensures { (numbers : List ℕ) → HasNumbers numbers current.now → IfOk result (λ lost. lost.keys
        ≡ ordered nat_cmp (filter (λ n. not (list_any (λ m. m == n) numbers)) before.now)) }
{
    let mut lost = BTreeSet::new(alloc);
    for place in (0..before.len()).rev() {
        note_lost(&mut lost, current, before[place])?;
    }
    Ok(lost)
}

// Adds a number that is not open.
fn note_lost(lost: &mut BTreeSet<u64>, current: &BTreeSet<u64>, number: u64) -> Result<(), Memory>
    ensures { OnOk result (lost.new.keys ≡ (if contains nat_cmp current.now number
        then lost.old.keys else insert_key nat_cmp lost.old.keys number)) }
{
    if current.contains(&number) {
        return Ok(());
    }
    let _added = lost.insert(number)?;
    Ok(())
}

// Tells of the requests from a number on.
fn add_interfaces(
    alloc: Global,
    notices: &mut Items<Notice>,
    next: u64,
    conf: &Conf,
    current: &[OpenInterface],
) -> Result<(), Memory>
    ensures { OnOk result (notices.new ≡ notices.old ++ map (spec.interface_notice conf.now)
        (filter (λ o. nat_le next o.number) current.now)) }
{
    let places = interface_places(alloc, conf.interfaces.as_slice())?;
    for asked in current {
        if next <= asked.number {
            notices.push(interface_notice(conf, &places, asked))?;
        }
    }
    Ok(())
}

fn interface_notice(conf: &Conf, places: &BTreeMap<Text, usize>, asked: &OpenInterface) -> Notice
    requires { HasPlaces places.now (map (λ row. row.name) conf.now.interfaces) }
    ensures { result ≡ spec.interface_notice conf.now asked.now }
{
    let row = place_or_first(places, &asked.request.name);
    Notice::Interface {
        number: asked.number,
        row,
        device: asked.request.device,
    }
}

// Tells of the requests from a number on.
fn add_radios(
    alloc: Global,
    notices: &mut Items<Notice>,
    next: u64,
    conf: &Conf,
    current: &[OpenRadio],
) -> Result<(), Memory>
    ensures { OnOk result (notices.new ≡ notices.old ++ map (spec.radio_notice conf.now)
        (filter (λ o. nat_le next o.number) current.now)) }
{
    let places = radio_places(alloc, conf.radios.as_slice())?;
    for asked in current {
        if next <= asked.number {
            notices.push(radio_notice(conf, &places, asked))?;
        }
    }
    Ok(())
}

fn radio_notice(conf: &Conf, places: &BTreeMap<Text, usize>, asked: &OpenRadio) -> Notice
    requires { HasPlaces places.now (map (λ row. row.name) conf.now.radios) }
    ensures { result ≡ spec.radio_notice conf.now asked.now }
{
    let row = place_or_first(places, &asked.request.name);
    Notice::Radio {
        number: asked.number,
        row,
    }
}

fn place_or_first(places: &BTreeMap<Text, usize>, name: &Text) -> usize
    ensures { (names : List (List ℕ)) → HasPlaces places.now names
        → result ≡ unwrap_or (place_of names name.now) 0 }
{
    match places.get(name) {
        Some(place) => *place,
        None => 0,
    }
}

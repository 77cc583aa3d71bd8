ghost use Rattle.std.specs.Prelude.{◌≡◌, ℕ, List, [], map, codes, IfOk, OnOk};
ghost use Rattle.net_rows.specs.Options as by_name;
ghost use Rattle.net_interfaces.specs.Names.{HasPlaces};
ghost use Rattle.net_interfaces.specs.Radios as spec;

use crate::copies::copy_options;
use crate::kinds::{WIFI_DEVICE, WIFI_IFACE};
use crate::names::{note, place_given};
use net_rows::{RadioRow, WifiRow, truth_of, value_of, words_of};
use plane_io::{Items, Memory, Text};
use std::alloc::Global;
use std::collections::BTreeMap;
use uci_tree::{Opt, Section};

/// The rows of all `wifi-device` sections, in file order, each with those of the `wifi-iface`
/// sections that name it. A `wifi-iface` section that names no radio has no row.
pub fn radio_rows(alloc: Global, sections: &[Section]) -> Result<Items<RadioRow>, Memory>
    ensures { IfOk result (λ rows. rows ≡ spec.radio_rows sections.now) }
{
    let mut rows = bare_rows(alloc, sections)?;
    let places = radio_places(alloc, rows.as_slice())?;
    for section in sections {
        add_wifi(alloc, &mut rows, &places, section)?;
    }
    Ok(Items::from_vec(rows))
}

// The rows of the radios, without those of their interfaces.
fn bare_rows(alloc: Global, sections: &[Section]) -> Result<Vec<RadioRow>, Memory>
    ensures { IfOk result (λ rows. rows.items ≡ map (λ radio. spec.radio_row radio [])
        (spec.radios sections.now)) }
{
    let mut rows = Vec::new(alloc);
    for section in sections {
        if is_radio(section) {
            rows.push(bare_row(alloc, section)?)?;
        }
    }
    Ok(rows)
}

fn is_radio(section: &Section) -> bool
    ensures { result ≡ spec.is_radio section.now }
{
    section.kind.as_bytes() == WIFI_DEVICE
}

fn bare_row(alloc: Global, section: &Section) -> Result<RadioRow, Memory>
    ensures { IfOk result (λ row. row ≡ spec.radio_row section.now []) }
{
    let options = section.options.as_slice();
    Ok(RadioRow {
        name: section.name.copy()?,
        disabled: truth_of(options, b"disabled", false),
        options: copy_options(alloc, options)?,
        rows: Items::new(alloc),
        faults: Items::new(alloc),
    })
}

fn radio_places(alloc: Global, radios: &[RadioRow]) -> Result<BTreeMap<Text, usize>, Memory>
    ensures { IfOk result (λ places. HasPlaces places (map (λ row. row.name) radios.now)) }
{
    let mut places = BTreeMap::new(alloc);
    for (place, row) in radios.iter().enumerate() {
        note(&mut places, &row.name, place)?;
    }
    Ok(places)
}

// Adds the row of a section to the radio that it names. `places` has the places of the names of the
// radios.
fn add_wifi(
    alloc: Global,
    rows: &mut Vec<RadioRow>,
    places: &BTreeMap<Text, usize>,
    section: &Section,
) -> Result<(), Memory>
    ensures { (names : List (List ℕ)) → HasPlaces places.now names → OnOk result (rows.new.items
        ≡ spec.with_wifi (spec.radio_of names section.now) section.now rows.old.items) }
{
    let Some(place) = radio_of(places, section) else {
        return Ok(());
    };
    let row = wifi_row(alloc, section)?;
    push_row(rows, place, row)
}

fn radio_of(places: &BTreeMap<Text, usize>, section: &Section) -> Option<usize>
    ensures { (names : List (List ℕ)) → HasPlaces places.now names →
        result ≡ spec.radio_of names section.now }
{
    if section.kind.as_bytes() != WIFI_IFACE {
        return None;
    }
    place_given(places, section.options.as_slice(), b"device")
}

fn push_row(rows: &mut Vec<RadioRow>, place: usize, row: WifiRow) -> Result<(), Memory>
    ensures { OnOk result (rows.new.items ≡ spec.with_row_at place row rows.old.items) }
{
    if place >= rows.len() {
        return Ok(());
    }
    let radio = &mut rows[place];
    radio.rows.push(row)
}

fn wifi_row(alloc: Global, section: &Section) -> Result<WifiRow, Memory>
    ensures { IfOk result (λ row. row ≡ spec.wifi_row section.now) }
{
    let options = section.options.as_slice();
    Ok(WifiRow {
        network: network_of(alloc, options)?,
        disabled: truth_of(options, b"disabled", false),
        options: copy_options(alloc, options)?,
    })
}

// The first word of `network`.
fn network_of(alloc: Global, options: &[Opt]) -> Result<Option<Text>, Memory>
    ensures { IfOk result (λ word. word
        ≡ spec.first_word (by_name.value_of (codes "network") options.now)) }
{
    let Some(value) = value_of(options, b"network") else {
        return Ok(None);
    };
    let words = words_of(alloc, value)?;
    match words.as_slice() {
        [first, ..] => Ok(Some(first.copy()?)),
        [] => Ok(None),
    }
}

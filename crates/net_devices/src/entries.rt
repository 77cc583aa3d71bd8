ghost use Rattle.std.specs.Prelude.{◌≡◌, IfOk};
ghost use Rattle.net_devices.specs.EachOnce.{has, with_name};
ghost use Rattle.net_devices.specs.Entries as spec;

use crate::each_once::{NamesOnce, TextsOnce};
use kern_model::{DevName, read_name};
use net_rows::{VlanEntry, cut_first};
use plane_io::{Items, Memory, Text};
use std::alloc::Global;

/// The port that a word is: a device name, and perhaps `:` and a suffix. Without one it is untagged
/// and PVID.
pub fn entry_of(word: &[u8]) -> Option<VlanEntry>
    ensures { result ≡ spec.entry_of word.now }
{
    match cut_first(word, b':') {
        Some((name, suffix)) => entry_at(name, suffix),
        None => entry_at(word, b"u*"),
    }
}

fn entry_at(name: &[u8], suffix: &[u8]) -> Option<VlanEntry>
    ensures { result ≡ spec.entry_named name.now suffix.now }
{
    let Some(port) = read_name(name) else {
        return None;
    };
    with_suffix(port, suffix)
}

fn with_suffix(port: DevName, suffix: &[u8]) -> Option<VlanEntry>
    ensures { result ≡ spec.with_suffix port suffix.now }
{
    if suffix == b"u*".as_slice() {
        return entry(port, true, true);
    }
    if suffix == b"u".as_slice() {
        return entry(port, false, true);
    }
    if suffix == b"t".as_slice() {
        return entry(port, false, false);
    }
    if suffix == b"t*".as_slice() {
        return entry(port, true, false);
    }
    None
}

fn entry(port: DevName, pvid: bool, untagged: bool) -> Option<VlanEntry>
    ensures { result ≡ spec.entry port pvid untagged }
{
    Some(VlanEntry {
        port,
        pvid,
        untagged,
    })
}

/// The entries of the words that are ports.
pub fn entries_of(alloc: Global, words: &[Text]) -> Result<Items<VlanEntry>, Memory>
    ensures { IfOk result (λ entries. entries ≡ spec.entries_of words.now) }
{
    let mut entries = Items::new(alloc);
    for word in words {
        if let Some(entry) = entry_of(word.as_bytes()) {
            entries.push(entry)?;
        }
    }
    Ok(entries)
}

/// The words that are no ports, each once.
pub fn bad_words(alloc: Global, words: &[Text]) -> Result<Items<Text>, Memory>
    ensures { IfOk result (λ bad. bad ≡ spec.bad_words words.now) }
{
    let mut bad = TextsOnce::new(alloc);
    for word in words {
        if let None = entry_of(word.as_bytes()) {
            bad.add(word)?;
        }
    }
    Ok(bad.into_items())
}

/// The first entry of each port.
pub fn first_entries(alloc: Global, entries: &[VlanEntry]) -> Result<Items<VlanEntry>, Memory>
    ensures { IfOk result (λ first. first ≡ spec.first_entries entries.now) }
{
    let mut first = Items::new(alloc);
    let mut ports = NamesOnce::new(alloc);
    for entry in entries {
        if ports.add(&entry.port)? {
            first.push(*entry)?;
        }
    }
    Ok(first)
}

/// The ports that have several entries, each once.
pub fn repeated_ports(alloc: Global, entries: &[VlanEntry]) -> Result<Items<DevName>, Memory>
    ensures { IfOk result (λ repeated. repeated ≡ spec.repeated_ports entries.now) }
{
    let mut repeated = NamesOnce::new(alloc);
    let mut ports = NamesOnce::new(alloc);
    for entry in entries {
        if !ports.add(&entry.port)? {
            repeated.add(&entry.port)?;
        }
    }
    Ok(repeated.into_items())
}

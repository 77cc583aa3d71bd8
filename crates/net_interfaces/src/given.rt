ghost use Rattle.std.specs.Prelude.{◌≡◌, ◌++◌, IfOk, OnOk};
ghost use Rattle.net_interfaces.specs.Given as spec;

use net_rows::{FaultName, RowFault, Stated, item_words, value_of};
use plane_io::{Items, Memory, Text};
use std::alloc::Global;
use uci_tree::Opt;

/// Whether an option is there and does not read.
pub fn is_unread<T>(stated: &Stated<T>) -> bool
    ensures { result ≡ spec.is_unread stated.now }
{
    match stated {
        Stated::Unread => true,
        Stated::Absent => false,
        Stated::Read(_) => false,
    }
}

/// What was read.
pub fn if_read<T: Copy>(stated: &Stated<T>) -> Option<T>
    ensures { result ≡ spec.if_read stated.now }
{
    match stated {
        Stated::Read(value) => Some(*value),
        Stated::Absent => None,
        Stated::Unread => None,
    }
}

/// What was read, and else the default.
pub fn read_or<T: Copy>(default: T, stated: &Stated<T>) -> T
    ensures { result ≡ spec.read_or default stated.now }
{
    match stated {
        Stated::Read(value) => *value,
        Stated::Absent => default,
        Stated::Unread => default,
    }
}

/// Adds what was read.
pub fn add_read<T: Copy + Drop>(items: &mut Items<T>, stated: &Stated<T>) -> Result<(), Memory>
    ensures { OnOk result (items.new ≡ items.old ++ spec.read_list stated.now) }
{
    match stated {
        Stated::Read(value) => items.push(*value),
        Stated::Absent => Ok(()),
        Stated::Unread => Ok(()),
    }
}

/// The items of the list, or the words of the text, that an option gives.
pub fn option_words(alloc: Global, options: &[Opt], name: &[u8]) -> Result<Items<Text>, Memory>
    ensures { IfOk result (λ words. words ≡ spec.option_words name.now options.now) }
{
    match value_of(options, name) {
        Some(value) => item_words(alloc, value),
        None => Ok(Items::new(alloc)),
    }
}

/// Adds a fault that is about no word, where it is there.
pub fn add_if(faults: &mut Items<RowFault>, there: bool, name: FaultName) -> Result<(), Memory>
    ensures { OnOk result (faults.new ≡ faults.old ++ spec.if_so there name) }
{
    if !there {
        return Ok(());
    }
    faults.push(RowFault {
        name,
        argument: None,
    })
}

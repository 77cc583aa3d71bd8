ghost use Rattle.std.specs.Prelude.{◌≡◌, ◌++◌, map, IfOk, OnOk};
ghost use Rattle.serde_json.specs.View.{view};
ghost use Rattle.net_status.specs.Faults as spec;

use crate::values::text;
use net_rows::{FaultName, RowFault};
use plane_io::{Memory, Text};
use serde_json::Value;
use std::alloc::Global;

/// The faults with their arguments.
pub fn fault_items(alloc: Global, faults: &[RowFault]) -> Result<Vec<Value>, Memory>
    ensures { IfOk result (λ items. map view items.items ≡ map spec.fault_item faults.now) }
{
    let mut items = Vec::new(alloc);
    add_faults(alloc, &mut items, faults)?;
    Ok(items)
}

/// Adds the faults with their arguments.
pub fn add_faults(alloc: Global, items: &mut Vec<Value>, faults: &[RowFault]) -> Result<(), Memory>
    ensures { OnOk result (map view items.new.items ≡ map view items.old.items
        ++ map spec.fault_item faults.now) }
{
    for fault in faults {
        items.push(fault_item(alloc, fault)?)?;
    }
    Ok(())
}

/// A fault with its argument.
pub fn fault_item(alloc: Global, fault: &RowFault) -> Result<Value, Memory>
    ensures { IfOk result (λ value. view value ≡ spec.fault_item fault.now) }
{
    let bytes = fault_text(alloc, fault)?;
    text(alloc, bytes.as_slice())
}

fn fault_text(alloc: Global, fault: &RowFault) -> Result<Vec<u8>, Memory>
    ensures { IfOk result (λ bytes. bytes.items ≡ spec.fault_text fault.now) }
{
    let mut bytes = Vec::from_slice(alloc, fault_word(fault.name))?;
    add_argument(&mut bytes, &fault.argument)?;
    Ok(bytes)
}

fn add_argument(bytes: &mut Vec<u8>, argument: &Option<Text>) -> Result<(), Memory>
    ensures { OnOk result (bytes.new.items
        ≡ bytes.old.items ++ spec.argument_part argument.now) }
{
    match argument {
        Some(argument) => {
            bytes.push(b' ')?;
            bytes.extend_from_slice(argument.as_bytes())?;
            Ok(())
        }
        None => Ok(()),
    }
}

/// What a fault is called.
pub fn fault_word(name: FaultName) -> &'static [u8]
    ensures { result.now ≡ spec.fault_word name }
{
    match name {
        FaultName::NoName => b"NoName",
        FaultName::BadName => b"BadName",
        FaultName::WrongType => b"WrongType",
        FaultName::BadVid => b"BadVid",
        FaultName::BadLower => b"BadLower",
        FaultName::BadPort => b"BadPort",
        FaultName::BridgePort => b"BridgePort",
        FaultName::SameVlan => b"SameVlan",
        FaultName::TooHigh => b"TooHigh",
        FaultName::BadMtu => b"BadMtu",
        FaultName::BadMac => b"BadMac",
        FaultName::NoBridge => b"NoBridge",
        FaultName::DoublePort => b"DoublePort",
        FaultName::SecondPvid => b"SecondPvid",
        FaultName::BadDevice => b"BadDevice",
        FaultName::Alias => b"Alias",
        FaultName::BadAddress => b"BadAddress",
        FaultName::BadMask => b"BadMask",
        FaultName::BadGateway => b"BadGateway",
        FaultName::BadMetric => b"BadMetric",
        FaultName::OldSyntax => b"OldSyntax",
        FaultName::NoInterface => b"NoInterface",
        FaultName::BadTarget => b"BadTarget",
        FaultName::BadTable => b"BadTable",
    }
}

ghost use Rattle.std.specs.Prelude.{◌≡◌, ◌++◌, IfOk, OnOk};
ghost use Rattle.std.specs.List.{list_all};
ghost use Rattle.std.specs.Option.{option_copied};
ghost use Rattle.uci_types.specs.Values.{in_set};
ghost use Rattle.uci_types.specs.Faults as spec;

use crate::{Datatype, Rule, accepts};
use net_rows::value_of;
use plane_io::{Items, Memory, Text};
use std::alloc::Global;
use uci_tree::{Package, Section, Value};

/// An option of a section that breaks a rule.
#[derive(Clone, Copy)]
pub struct Fault {
    /// The place of the section in the package, from 0.
    pub section: usize,
    /// The place of the rule, from 0.
    pub rule: usize,
    /// Whether the option is required and absent. Else its value, or an item of it, is not
    /// accepted.
    pub missing: bool,
}

/// The faults of a package by rules: by section, and those of a section by rule. A section and a
/// rule have one fault together at most. An option without a rule has none.
///
/// # Errors
///
/// `Memory` where there was not enough memory.
pub fn check(alloc: Global, package: &Package, rules: &[Rule]) -> Result<Items<Fault>, Memory>
    ensures { IfOk result (λ found. found ≡ spec.faults «package».now.sections rules.now) }
{
    let mut faults = Items::new(alloc);
    let sections = package.sections.as_slice();
    for (at, section) in sections.iter().enumerate() {
        push_section_faults(&mut faults, at, section, rules)?;
    }
    Ok(faults)
}

fn push_section_faults(
    faults: &mut Items<Fault>,
    at: usize,
    section: &Section,
    rules: &[Rule],
) -> Result<(), Memory>
    ensures { OnOk result
        (faults.new ≡ faults.old ++ spec.section_faults at section.now 0 rules.now) }
{
    for (place, rule) in rules.iter().enumerate() {
        push_rule_fault(faults, at, section, place, rule)?;
    }
    Ok(())
}

fn push_rule_fault(
    faults: &mut Items<Fault>,
    at: usize,
    section: &Section,
    place: usize,
    rule: &Rule,
) -> Result<(), Memory>
    ensures { OnOk result
        (faults.new ≡ faults.old ++ spec.rule_faults at section.now place rule.now) }
{
    if section.kind.as_bytes() != rule.kind.as_bytes() {
        return Ok(());
    }
    let value = value_of(section.options.as_slice(), rule.option.as_bytes());
    let Some(missing) = fault_of(rule, value) else {
        return Ok(());
    };
    faults.push(Fault {
        section: at,
        rule: place,
        missing,
    })
}

// Whether a rule's option is missing, or `None` where its value is accepted or may be absent.
fn fault_of(rule: &Rule, value: Option<&Value>) -> Option<bool>
    ensures { result ≡ spec.breach rule.now (option_copied value.entry) }
{
    let Some(value) = value else {
        if rule.required {
            return Some(true);
        }
        return None;
    };
    if is_accepted(&rule.datatype, value) {
        return None;
    }
    Some(false)
}

fn is_accepted(datatype: &Datatype, value: &Value) -> bool
    ensures { result ≡ spec.is_accepted datatype.now value.now }
{
    match value {
        Value::One(text) => accepts(datatype, text.as_bytes()),
        Value::Many(items) => all_accepted(datatype, items.as_slice()),
    }
}

fn all_accepted(datatype: &Datatype, items: &[Text]) -> bool
    ensures { result ≡ list_all (in_set datatype.now) items.now }
{
    for item in items {
        if !accepts(datatype, item.as_bytes()) {
            return false;
        }
    }
    true
}

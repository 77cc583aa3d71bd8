ghost use Rattle.std.specs.Prelude.{◌≡◌, IfOk};
ghost use Rattle.net_interfaces.specs.Interfaces as spec;

use crate::addresses::{addresses_of, is_static, proto_of};
use crate::copies::copy_option;
use crate::faults::{faults_of, stated_device, stated_metric};
use crate::gateways::gateways_of;
use crate::given::{if_read, read_or};
use crate::kinds::INTERFACE;
use net_rows::{InterfaceRow, truth_of};
use plane_io::{Items, Memory, Text};
use std::alloc::Global;
use uci_tree::{Opt, Section};

/// The rows of all `interface` sections, in file order, each with its faults.
pub fn interface_rows(alloc: Global, sections: &[Section]) -> Result<Items<InterfaceRow>, Memory>
    ensures { IfOk result (λ rows. rows ≡ spec.interface_rows sections.now) }
{
    let mut rows = Items::new(alloc);
    for section in sections {
        if is_interface(section) {
            rows.push(interface_row(alloc, section)?)?;
        }
    }
    Ok(rows)
}

fn is_interface(section: &Section) -> bool
    ensures { result ≡ spec.is_interface section.now }
{
    section.kind.as_bytes() == INTERFACE
}

fn interface_row(alloc: Global, section: &Section) -> Result<InterfaceRow, Memory>
    ensures { IfOk result (λ row. row ≡ spec.interface_row section.now) }
{
    let options = section.options.as_slice();
    Ok(InterfaceRow {
        name: section.name.copy()?,
        anonymous: section.anonymous,
        proto: Text::from_bytes(alloc, proto_of(options))?,
        device: if_read(&stated_device(options)),
        autostart: truth_of(options, b"auto", true),
        disabled: truth_of(options, b"disabled", false),
        force_link: truth_of(options, b"force_link", is_static(options)),
        metric: read_or(0, &stated_metric(options)),
        addresses: addresses_of(alloc, options)?,
        gateways: gateways_of(alloc, options)?,
        options: told(alloc, options)?,
        faults: faults_of(alloc, options)?,
    })
}

// The options that the protocol is told.
fn told(alloc: Global, options: &[Opt]) -> Result<Items<Opt>, Memory>
    ensures { IfOk result (λ told. told ≡ spec.told options.now) }
{
    let mut told = Items::new(alloc);
    for option in options {
        if !is_own(option) {
            told.push(copy_option(alloc, option)?)?;
        }
    }
    Ok(told)
}

fn is_own(option: &Opt) -> bool
    ensures { result ≡ spec.is_own option.now }
{
    let name = option.name.as_bytes();
    name == b"proto".as_slice()
        || name == b"device".as_slice()
        || name == b"auto".as_slice()
        || name == b"disabled".as_slice()
        || name == b"force_link".as_slice()
}

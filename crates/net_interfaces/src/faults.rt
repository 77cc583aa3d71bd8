ghost use Rattle.std.specs.Prelude.{◌≡◌, ◌++◌, IfOk, OnOk};
ghost use Rattle.net_interfaces.specs.Faults as spec;

use crate::addresses::{has_bad_address, is_static, stated_mask};
use crate::gateways::has_bad_gateway;
use crate::given::{add_if, is_unread};
use kern_model::DevName;
use net_rows::{
    FaultName, RowFault, Stated, is_given, read_decimal, stated_name, text_of, value_of,
};
use plane_io::{Items, Memory};
use std::alloc::Global;
use uci_tree::{Opt, Value};

/// The name that `device` gives.
pub fn stated_device(options: &[Opt]) -> Stated<DevName>
    ensures { result ≡ spec.stated_device options.now }
{
    stated_name(options, b"device")
}

/// The number that `metric` gives.
pub fn stated_metric(options: &[Opt]) -> Stated<u32>
    ensures { result ≡ spec.stated_metric options.now }
{
    match value_of(options, b"metric") {
        None => Stated::Absent,
        Some(Value::Many(_)) => Stated::Unread,
        Some(Value::One(text)) => match read_decimal(text.as_bytes()) {
            Some(metric) => Stated::Read(metric),
            None => Stated::Unread,
        },
    }
}

/// What is wrong with an interface, each fault once, in the order of a row.
pub fn faults_of(alloc: Global, options: &[Opt]) -> Result<Items<RowFault>, Memory>
    ensures { IfOk result (λ faults. faults ≡ spec.faults options.now) }
{
    let mut faults = Items::new(alloc);
    let is_bad_device = is_unread(&stated_device(options));
    let is_bad_metric = is_unread(&stated_metric(options));
    add_if(&mut faults, is_bad_device, FaultName::BadDevice)?;
    add_if(&mut faults, is_alias(options), FaultName::Alias)?;
    if is_static(options) {
        add_static_faults(alloc, &mut faults, options)?;
    }
    add_if(&mut faults, is_bad_metric, FaultName::BadMetric)?;
    add_if(&mut faults, is_old(options), FaultName::OldSyntax)?;
    Ok(faults)
}

fn add_static_faults(
    alloc: Global,
    faults: &mut Items<RowFault>,
    options: &[Opt],
) -> Result<(), Memory>
    ensures { OnOk result (faults.new ≡ faults.old ++ spec.static_faults options.now) }
{
    let is_bad = has_bad_address(alloc, options)?;
    add_if(faults, is_bad, FaultName::BadAddress)?;
    add_if(faults, is_unread(&stated_mask(options)), FaultName::BadMask)?;
    add_if(faults, has_bad_gateway(options), FaultName::BadGateway)
}

// Whether `device` names another interface, as `@lan`.
fn is_alias(options: &[Opt]) -> bool
    ensures { result ≡ spec.is_alias options.now }
{
    match text_of(options, b"device") {
        Some([b'@', ..]) => true,
        Some(_) => false,
        None => false,
    }
}

fn is_old(options: &[Opt]) -> bool
    ensures { result ≡ spec.is_old options.now }
{
    is_given(options, b"type") || is_given(options, b"ifname")
}

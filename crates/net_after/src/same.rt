ghost use Rattle.std.specs.Prelude.{◌≡◌};
ghost use Rattle.std.specs.Cmp.Lexicographic.{pointwise};
ghost use Rattle.net_rules.specs.Need as spec;

use kern_model::DevName;
use net_rules::{InterfaceRequest, RadioRequest, WifiRequest};
use uci_tree::{Opt, Value};

/// Whether both are one request.
pub fn same_interface_request(a: &InterfaceRequest, b: &InterfaceRequest) -> bool
    ensures { result ≡ spec.same_interface_request a.now b.now }
{
    let options = same_options(a.options.as_slice(), b.options.as_slice());
    let device = same_device(&a.device, &b.device);
    (a.name.as_bytes() == b.name.as_bytes())
        & ((a.proto.as_bytes() == b.proto.as_bytes()) & (options & device))
}

/// Whether both are one request.
pub fn same_radio_request(a: &RadioRequest, b: &RadioRequest) -> bool
    ensures { result ≡ spec.same_radio_request a.now b.now }
{
    let options = same_options(a.options.as_slice(), b.options.as_slice());
    let rows = same_rows(a.rows.as_slice(), b.rows.as_slice());
    (a.name.as_bytes() == b.name.as_bytes()) & (options & rows)
}

fn same_rows(rows: &[WifiRequest], others: &[WifiRequest]) -> bool
    ensures { result ≡ pointwise (λ x y. spec.same_options x.options y.options) rows.now
        others.now }
{
    if rows.len() != others.len() {
        return false;
    }
    for place in 0..rows.len() {
        let row = rows[place].options.as_slice();
        if !same_options(row, others[place].options.as_slice()) {
            return false;
        }
    }
    true
}

fn same_options(options: &[Opt], others: &[Opt]) -> bool
    ensures { result ≡ spec.same_options options.now others.now }
{
    if options.len() != others.len() {
        return false;
    }
    for place in 0..options.len() {
        if !same_option(&options[place], &others[place]) {
            return false;
        }
    }
    true
}

fn same_option(a: &Opt, b: &Opt) -> bool
    ensures { result ≡ spec.same_option a.now b.now }
{
    let value = same_value(&a.value, &b.value);
    (a.name.as_bytes() == b.name.as_bytes()) & value
}

fn same_value(a: &Value, b: &Value) -> bool
    ensures { result ≡ spec.same_value a.now b.now }
{
    match a {
        Value::One(text) => match b {
            Value::One(other) => text.as_bytes() == other.as_bytes(),
            Value::Many(_) => false,
        },
        Value::Many(texts) => match b {
            Value::One(_) => false,
            Value::Many(others) => texts.as_slice() == others.as_slice(),
        },
    }
}

fn same_device(a: &Option<DevName>, b: &Option<DevName>) -> bool
    ensures { result ≡ spec.same_device a.now b.now }
{
    match a {
        Some(name) => match b {
            Some(other) => name.text() == other.text(),
            None => false,
        },
        None => b.is_none(),
    }
}

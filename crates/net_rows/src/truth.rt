ghost use Rattle.std.specs.Prelude.{◌≡◌};
ghost use Rattle.net_rows.specs.Truth as spec;
ghost use Rattle.net_rows.specs.Options as by_name;

use crate::options::text_of;
use uci_tree::Opt;

/// The truth value of an option: true is `1`, `on`, `true`, `yes` or `enabled`, false is `0`,
/// `off`, `false`, `no` or `disabled`. Another text, a list and no option are the default.
pub fn truth_of(options: &[Opt], name: &[u8], default: bool) -> bool
    ensures { result ≡ spec.truth default (by_name.text_of name.now options.now) }
{
    let Some(text) = text_of(options, name) else {
        return default;
    };
    if is_true(text) {
        return true;
    }
    if is_false(text) {
        return false;
    }
    default
}

fn is_true(text: &[u8]) -> bool
    ensures { result ≡ spec.is_true text.now }
{
    text == b"1".as_slice()
        || text == b"on".as_slice()
        || text == b"true".as_slice()
        || text == b"yes".as_slice()
        || text == b"enabled".as_slice()
}

fn is_false(text: &[u8]) -> bool
    ensures { result ≡ spec.is_false text.now }
{
    text == b"0".as_slice()
        || text == b"off".as_slice()
        || text == b"false".as_slice()
        || text == b"no".as_slice()
        || text == b"disabled".as_slice()
}

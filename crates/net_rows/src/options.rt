ghost use Rattle.std.specs.Prelude.{◌≡◌};
ghost use Rattle.std.specs.Option.{option_copied};
ghost use Rattle.net_rows.specs.Options as spec;

use uci_tree::{Opt, Value};

/// The value of the first option of the name.
pub fn value_of<'a>(options: &'a [Opt], name: &[u8]) -> Option<&'a Value>
    ensures { option_copied result ≡ spec.value_of name.now options.now }
{
    for option in options {
        if option.name.as_bytes() == name {
            return Some(&option.value);
        }
    }
    None
}

/// Whether there is an option of the name.
pub fn is_given(options: &[Opt], name: &[u8]) -> bool
    ensures { result ≡ spec.is_given name.now options.now }
{
    options.iter().any(|option| option.name.as_bytes() == name)
}

/// The text of the first option of the name, where its value is no list.
pub fn text_of<'a>(options: &'a [Opt], name: &[u8]) -> Option<&'a [u8]>
    ensures { option_copied result ≡ spec.text_of name.now options.now }
{
    match value_of(options, name) {
        Some(Value::One(text)) => Some(text.as_bytes()),
        Some(Value::Many(_)) => None,
        None => None,
    }
}

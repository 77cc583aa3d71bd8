ghost use Rattle.std.specs.Prelude.{◌≡◌, ◌&&◌};
ghost use Rattle.uci_text.specs.declared.byte_class.ByteClass.TheVariants.{Name, Printable};
ghost use Rattle.uci_delta.specs.Names as spec;

use plane_io::Text;
use uci_text::{ByteClass, is_name};

/// Whether the text is one or more bytes of the class.
pub fn is_named(class: ByteClass, text: &Text) -> bool
    ensures { result ≡ spec.is_name_of class text.now }
{
    is_name(class, text.as_bytes())
}

/// Whether the text may be a value: none of its bytes is zero.
pub fn is_value(text: &Text) -> bool
    ensures { result ≡ spec.is_value text.now }
{
    ByteClass::NotZero.contains_all(text.as_bytes())
}

ghost use Rattle.std.specs.Prelude.{◌≡◌, ◌++◌, ℕ, List, Option, MatchOption, IsTrue, ◌↔◌};
ghost use Rattle.std.specs.Option.{option_copied};
ghost use Rattle.uci_text.specs.declared.byte_class.ByteClass.TheVariants.{Name as NameClass};
ghost use Rattle.uci_text.specs.Table.{IsNameOf};
ghost use Rattle.uci_delta.specs.declared.head.Kind.{Kind};
ghost use Rattle.uci_delta.specs.Head as spec;
ghost use Rattle.uci_delta.specs.Line.{IsNamedOption};
ghost use Rattle.uci_delta.specs.Print.{sign_of};

use uci_text::{ByteClass, is_name};
use uci_tree::cut_first;

/// The kinds of changes.
#[derive(Clone, Copy)]
pub enum Kind {
    Set,
    Remove,
    Add,
    Rename,
    Reorder,
    ListAdd,
    ListDel,
}

impl Kind {
    /// The kind of the line that has this in front of its first `.`: a sign and the package's name.
    fn of(package: &[u8], front: &[u8]) -> Option<Kind>
        ensures { MatchOption result
            ((kind : Kind) → front.now ≡ sign_of kind ++ «package».now → ⊥)
            (λ kind. front.now ≡ sign_of kind ++ «package».now) }
    {
        if front == package {
            return Some(Kind::Set);
        }
        let Some((sign, name)) = front.split_first() else {
            return None;
        };
        if name != package {
            return None;
        }
        match *sign {
            b'-' => Some(Kind::Remove),
            b'+' => Some(Kind::Add),
            b'@' => Some(Kind::Rename),
            b'^' => Some(Kind::Reorder),
            b'|' => Some(Kind::ListAdd),
            b'~' => Some(Kind::ListDel),
            _ => None,
        }
    }
}

/// The place in front of its first `.`, and what is behind it where there is one.
fn cut_place(place: &[u8]) -> (&[u8], Option<&[u8]>)
    ensures { spec.CutsPlace place.now result.0.now (option_copied result.1) }
{
    let Some((section, option)) = cut_first(place, b'.') else {
        return (place, None);
    };
    (section, Some(option))
}

fn is_named_option(option: Option<&[u8]>) -> bool
    ensures { IsTrue result ↔ IsNamedOption (option_copied option.entry) }
{
    match option {
        None => true,
        Some(name) => is_name(ByteClass::Name, name),
    }
}

/// Whether a change of this kind may be one of an option, or of a section.
fn fits(kind: Kind, option: Option<&[u8]>) -> bool
    ensures { IsTrue result ↔ spec.KindFits kind (option_copied option.entry) }
{
    match kind {
        Kind::Set | Kind::Remove | Kind::Rename => true,
        Kind::Add | Kind::Reorder => option.is_none(),
        Kind::ListAdd | Kind::ListDel => option.is_some(),
    }
}

/// The kind, the section and perhaps the option of the line of this package that has this in front
/// of its value.
pub fn read_head<'a>(package: &[u8], head: &'a [u8]) -> Option<(Kind, &'a [u8], Option<&'a [u8]>)>
    ensures { MatchOption result
        ((kind : Kind) (section : List ℕ) (option : Option (List ℕ)) →
        spec.IsHead «package».now head.now kind section option → ⊥)
        (λ found. spec.IsHead «package».now head.now found.0 found.1.now (option_copied found.2)) }
{
    let Some((front, place)) = cut_first(head, b'.') else {
        return None;
    };
    let Some(kind) = Kind::of(package, front) else {
        return None;
    };
    let (section, option) = cut_place(place);
    if !is_name(ByteClass::PackageName, package) {
        return None;
    }
    if !is_name(ByteClass::Name, section) {
        return None;
    }
    if !is_named_option(option) {
        return None;
    }
    if !fits(kind, option) {
        return None;
    }
    Some((kind, section, option))
}

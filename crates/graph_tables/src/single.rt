//! Objects that the use of one name decides.
ghost use Rattle.std.specs.Prelude.{◌≡◌, ◌++◌, ◌∷◌, [], map, OnOk, bytes_eq};
ghost use Rattle.net_rules.specs.Want as want;
ghost use Rattle.graph_rules.specs.State.{name_list};
ghost use Rattle.graph_counts.specs.Counted as counts;
ghost use Rattle.graph_wishes.specs.Wishes.{may_alone};
ghost use Rattle.graph_tables.specs.Wished.{may_by, wish_at, wishes_at};

use graph_names::Names;
use graph_objects::Wish;
use kern_model::{DevName, LinkKind, Mac, Object};
use plane_io::Memory;

/// The id of a name, or the number of names where it is not among them.
pub(crate) fn id_of(names: &Names, name: &DevName) -> usize
    ensures { result ≡ counts.id_of (name_list names.now) name.now }
{
    match names.find(name) {
        Some(id) => id,
        None => names.len(),
    }
}

/// Whether two names are one.
pub(crate) fn is_name(name: &DevName, other: &DevName) -> bool
    ensures { result ≡ bytes_eq name.now other.now }
{
    name.same(other)
}

/// An object that the use of two names decides.
pub(crate) fn wish(names: &Names, object: Object, first: &DevName, second: &DevName) -> Wish
    ensures { result ≡ wish_at (name_list names.now) (may_by object first.now second.now) }
{
    Wish {
        object,
        first: id_of(names, first),
        second: id_of(names, second),
        wanted: false,
    }
}

/// One more wish.
pub(crate) fn add(wishes: &mut Vec<Wish>, wish: Wish) -> Result<(), Memory>
    ensures { OnOk result (wishes.new.items ≡ wishes.old.items ++ wish ∷ []) }
{
    // A push is proved only where locals name the enums within it.
    let _object: Option<Object> = None;
    let _kind: Option<LinkKind> = None;
    wishes.push(wish)?;
    Ok(())
}

/// An object that the use of one name decides.
pub(crate) fn add_alone(
    names: &Names,
    name: &DevName,
    object: Object,
    wishes: &mut Vec<Wish>,
) -> Result<(), Memory>
    ensures { OnOk result (wishes.new.items ≡ wishes.old.items
        ++ wish_at (name_list names.now) (may_alone name.now object) ∷ []) }
{
    add(wishes, wish(names, object, name, name))
}

/// The MTU of a name, where one is configured.
pub(crate) fn add_mtu(
    names: &Names,
    name: &DevName,
    mtu: Option<u32>,
    wishes: &mut Vec<Wish>,
) -> Result<(), Memory>
    ensures { OnOk result (wishes.new.items ≡ wishes.old.items
        ++ wishes_at (name_list names.now) (map (may_alone name.now) (want.mtu_of name.now mtu))) }
{
    match mtu {
        Some(mtu) => add_alone(names, name, Object::Mtu { name: *name, mtu }, wishes),
        None => Ok(()),
    }
}

/// The hardware address of a plain name, where one is configured.
pub(crate) fn add_mac(
    names: &Names,
    name: &DevName,
    mac: Option<Mac>,
    wishes: &mut Vec<Wish>,
) -> Result<(), Memory>
    ensures { OnOk result (wishes.new.items ≡ wishes.old.items
        ++ wishes_at (name_list names.now) (map (may_alone name.now) (want.mac_of name.now mac))) }
{
    match mac {
        Some(mac) => add_alone(names, name, Object::Mac { name: *name, mac }, wishes),
        None => Ok(()),
    }
}

/// A name that is up.
pub(crate) fn add_up(names: &Names, name: &DevName, wishes: &mut Vec<Wish>) -> Result<(), Memory>
    ensures { OnOk result (wishes.new.items ≡ wishes.old.items
        ++ wish_at (name_list names.now) (may_alone name.now (Object.Up name.now)) ∷ []) }
{
    add_alone(names, name, Object::Up { name: *name }, wishes)
}

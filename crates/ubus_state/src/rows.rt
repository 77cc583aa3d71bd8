//! Rows found by their numbers.
ghost use Rattle.std.specs.Prelude.{◌≡◌, ◌==◌};
ghost use Rattle.std.specs.Option.{option_copied};
ghost use Rattle.std.specs.List.{find, list_any};
ghost use Rattle.ubus_table.specs.declared.rows.Object.{Object as ObjectRow};
ghost use Rattle.ubus_table.specs.Table.{has_number, is_local, is_path_of, path_of};

use plane_io::Text;
use ubus_table::Object;

/// The owner of objects that are no client's.
pub const NO_CLIENT: u32 = 0;

/// The number of the event object.
pub const EVENT_OBJECT: u32 = 1;

const LOCAL_NUMBERS: [u32; 6] = [2, 3, 4, 5, 6, 7];

/// The object of a number, out of a few.
pub(crate) fn find_object(objects: &[Object], number: u64) -> Option<&Object>
    ensures { option_copied result ≡ find (has_number number) objects.now }
{
    objects
        .iter()
        .find(|object| u64::from(object.number) == number)
}

/// An object of this type.
pub fn find_of_type(objects: &[Object], objtype: u32) -> Option<&Object>
    ensures { option_copied result
        ≡ find (λ (object : ObjectRow). object.objtype == objtype) objects.now }
{
    objects.iter().find(|object| object.objtype == objtype)
}

/// Whether an object has the path.
pub fn has_path(objects: &[Object], path: &[u8]) -> bool
    ensures { result
        ≡ list_any (λ (object : ObjectRow). is_path_of path.now object.path) objects.now }
{
    objects.iter().any(|object| is_path_of(path, &object.path))
}

/// Whether an object has the type.
pub fn has_type(objects: &[Object], objtype: u32) -> bool
    ensures { result
        ≡ list_any (λ (object : ObjectRow). object.objtype == objtype) objects.now }
{
    objects.iter().any(|object| object.objtype == objtype)
}

fn is_path_of(path: &[u8], other: &Option<Text>) -> bool
    ensures { result ≡ is_path_of path.now other.now }
{
    match other {
        Some(other) => other.as_bytes() == path,
        None => false,
    }
}

/// Whether the number is that of a local object.
pub fn is_local(number: u32) -> bool
    ensures { result ≡ is_local number }
{
    LOCAL_NUMBERS.iter().any(|own| *own == number)
}

/// The path of an object, empty where it has none.
pub fn path_of(object: &Object) -> &[u8]
    ensures { result.now ≡ path_of object.now }
{
    match &object.path {
        Some(path) => path.as_bytes(),
        None => b"",
    }
}

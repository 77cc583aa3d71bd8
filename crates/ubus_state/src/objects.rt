//! Objects and their owners.
ghost use Rattle.std.specs.Prelude.{◌≡◌, ◌==◌, []};
ghost use Rattle.std.specs.List.{find, list_any};
ghost use Rattle.std.specs.Option.{option_copied};
ghost use Rattle.ubus_table.specs.declared.rows.Object.{Object as ObjectRow};
ghost use Rattle.ubus_table.specs.Table as table;
ghost use Rattle.ubus_table.specs.Objects.{without_object};
ghost use Rattle.ubus_state.specs.Among.{objects_but};
ghost use Rattle.ubus_state.specs.Leaving.{partly};
ghost use Rattle.ubus_state.specs.State.{table_of};

use crate::{Bus, ObjectRows, find_of_type, has_path, has_type, is_among};
use plane_io::Text;
use ubus_table::Object;

impl Bus {
    /// The object of a number.
    #[tactic(auto, using(crate::proofs::ListLemmas::found_in))]
    pub fn object_of(&self, number: u64) -> Option<&Object>
        ensures { option_copied result ≡ table.object_of (table_of self.now) number }
    {
        match self.own.find(number) {
            Some(object) => Some(object),
            None => self.objects.find(number),
        }
    }

    /// The object of a number of a message.
    pub fn object_numbered(&self, number: u32) -> Option<&Object>
        ensures { option_copied result ≡ table.object_of (table_of self.now) number }
    {
        self.object_of(u64::from(number))
    }

    /// The number of an object's owner.
    pub fn owner_of(&self, number: u32) -> Option<u32>
        ensures { result ≡ table.owner_of (table_of self.now) number }
    {
        match self.object_numbered(number) {
            Some(object) => Some(object.owner),
            None => None,
        }
    }

    /// Whether the object is the client's.
    pub fn is_owned(&self, number: u32, client: u32) -> bool
        ensures { result ≡ table.is_owned (table_of self.now) number client }
    {
        match self.owner_of(number) {
            Some(owner) => owner == client,
            None => false,
        }
    }

    /// Whether a client of this number is connected.
    pub fn is_connected(&self, client: u32) -> bool
        ensures { result ≡ table.is_connected (table_of self.now) client }
    {
        self.clients.contains(client)
    }

    /// An object of this type.
    #[tactic(auto, using(crate::proofs::ListLemmas::found_in))]
    pub fn of_type(&self, objtype: u32) -> Option<&Object>
        ensures { option_copied result ≡ table.of_type (table_of self.now) objtype }
    {
        match find_of_type(self.own.local(), objtype) {
            Some(object) => Some(object),
            None => self.objects.find_of_type(objtype),
        }
    }

    /// Whether an object has the path.
    #[tactic(auto, using(crate::proofs::ListLemmas::any_in))]
    pub fn is_taken(&self, path: &Text) -> bool
        ensures { result ≡ table.is_taken (table_of self.now) path.now }
    {
        has_path(self.own.local(), path.as_bytes()) || self.objects.has_path(path)
    }

    /// Whether an object but this one has the type.
    #[tactic(auto, using(crate::proofs::ListLemmas::any_in))]
    pub fn is_type_kept(&self, number: u32, objtype: u32) -> bool
        ensures { result ≡ list_any (λ (object : ObjectRow). object.objtype == objtype)
            (table.typed (without_object (table_of self.now) number)) }
    {
        has_type(self.own.local(), objtype) || self.objects.has_type_but(number, objtype)
    }

    /// The number of an object's owner, where these objects have left.
    pub(crate) fn owner_left(&self, gone: &[u32], number: u32) -> Option<u32>
        ensures { result ≡ table.owner_of (partly (table_of self.now) gone.now [] []) number }
    {
        match self.object_left(gone, number) {
            Some(object) => Some(object.owner),
            None => None,
        }
    }

    #[tactic(auto, using(crate::proofs::ListLemmas::found_in))]
    fn object_left(&self, gone: &[u32], number: u32) -> Option<&Object>
        ensures { option_copied result
            ≡ table.object_of (partly (table_of self.now) gone.now [] []) number }
    {
        match self.own.find(u64::from(number)) {
            Some(object) => Some(object),
            None => object_but(&self.objects, gone, number),
        }
    }
}

/// The object of a number that is none of these.
#[tactic(auto, using(crate::proofs::LeaveLemmas::left_in))]
fn object_but<'a>(objects: &'a ObjectRows, gone: &[u32], number: u32) -> Option<&'a Object>
    ensures { option_copied result
        ≡ find (table.has_number number) (objects_but gone.now objects.now.rows.items) }
{
    if is_among(gone, number) {
        return None;
    }
    objects.find(u64::from(number))
}

ghost use Rattle.std.specs.Prelude.{◌≡◌, ◌≢◌, Err, Some};
ghost use Rattle.serde_json.specs.View.{view};
ghost use Rattle.rpc_login.specs.declared.group_error.GroupError.TheVariants.{Memory as NoMemory};
ghost use Rattle.rpc_login.specs.Form.{groups_in, groups_of};

use crate::GroupError;
use crate::read::read_files;
use plane_io::{Items, Text};
use rpc_session::Grant;
use serde_json::Value;
use std::alloc::Global;

/// A grant of a group, and whether it stands under `write` there, or under `read`.
#[derive(Drop)]
pub struct Perm {
    pub write: bool,
    pub grant: Grant,
}

/// A group of grants, as an access file names it.
#[derive(Drop)]
pub struct Group {
    pub name: Text,
    pub perms: Items<Perm>,
}

/// The groups of access files. Groups of one name may come from several files.
#[derive(Drop)]
pub struct Groups {
    pub groups: Items<Group>,
}

impl Groups {
    /// Reads groups: a JSON array of objects, each what a file of OpenWrt's `acl.d` holds.
    ///
    /// Such an object maps names of groups to objects with `read` and `write`, each of which may be
    /// absent. They map a scope to an array of texts, or to an object from texts to such arrays. A
    /// text of an array is an object with the function `read` or `write`, and one of an array under
    /// an object is a function of it. Other keys of a group are passed over. A group also has the
    /// grants of its own name in the scope `access-group`, last in each part.
    ///
    /// # Errors
    ///
    /// `BadJson` where the text is no JSON array, `BadGroup` for the first element that is of
    /// another form, and `Memory` where there was not enough memory.
    pub fn read(alloc: Global, text: &[u8]) -> Result<Groups, GroupError>
        ensures { result ≢ Err NoMemory → result ≡ groups_of text.now }
    {
        match Value::from_slice(alloc, text) {
            Ok(value) => read_list(alloc, &value),
            Err(error) => {
                if error.is_memory() {
                    Err(GroupError::Memory)
                } else {
                    Err(GroupError::BadJson)
                }
            }
        }
    }
}

fn read_list(alloc: Global, value: &Value) -> Result<Groups, GroupError>
    ensures { result ≢ Err NoMemory → result ≡ groups_in (Some (view value.now)) }
{
    let Value::Array(items) = value else {
        return Err(GroupError::BadJson);
    };
    Ok(Groups {
        groups: read_files(alloc, items)?,
    })
}

ghost use Rattle.std.specs.Prelude.{◌≡◌, ◌≢◌, Err, Some};
ghost use Rattle.serde_json.specs.View.{view};
ghost use Rattle.ubus_acl.specs.declared.access_error.AclError.TheVariants.{Memory as NoMemory};
ghost use Rattle.std.specs.List.{list_any};
ghost use Rattle.ubus_acl.specs.Acl as spec;
ghost use Rattle.ubus_acl.specs.Record.{lets, allows_call, allows_publish, allows_subscribe};
ghost use Rattle.ubus_acl.specs.Record.{allows_send, allows_listen};
ghost use Rattle.ubus_acl.specs.Form.{acl_of, acl_in};

use crate::read::read_records;
use crate::{AclError, Record};
use plane_io::Items;
use serde_json::Value;
use std::alloc::Global;

/// An access list. A client may do what some record of its user or its group allows. The user
/// `root` may do all.
#[derive(Drop)]
pub struct Acl {
    pub records: Items<Record>,
}

impl Acl {
    /// Reads an access list: a JSON array of objects.
    ///
    /// Each has `user` or `group` or both, texts. `access` maps patterns of objects to objects with
    /// `methods`, an array of texts. `publish`, `subscribe`, `send` and `listen` are arrays of
    /// texts. All but one of `user` and `group` may be absent, and other keys are passed over.
    ///
    /// # Errors
    ///
    /// `BadJson` where the text is no JSON array, `BadRecord` for the first item that is of another
    /// form, and `Memory` where there was not enough memory.
    pub fn read(alloc: Global, text: &[u8]) -> Result<Acl, AclError>
        ensures { result ≢ Err NoMemory → result ≡ acl_of text.now }
    {
        match Value::from_slice(alloc, text) {
            Ok(value) => read_list(alloc, &value),
            Err(error) => {
                if error.is_memory() {
                    Err(AclError::Memory)
                } else {
                    Err(AclError::BadJson)
                }
            }
        }
    }

    /// Whether a client may call the method of an object of this path, empty where it has none.
    pub fn may_call(&self, user: &[u8], group: &[u8], object: &[u8], method: &[u8]) -> bool
        ensures { result ≡ spec.may_call user.now group.now object.now method.now self.now }
    {
        is_root(user) || some_lets_call(self.records.as_slice(), user, group, object, method)
    }

    /// Whether a client may add an object of this path.
    pub fn may_publish(&self, user: &[u8], group: &[u8], path: &[u8]) -> bool
        ensures { result ≡ spec.may_publish user.now group.now path.now self.now }
    {
        is_root(user) || some_lets_publish(self.records.as_slice(), user, group, path)
    }

    /// Whether a client may subscribe to an object of this path, empty where it has none.
    pub fn may_subscribe(&self, user: &[u8], group: &[u8], path: &[u8]) -> bool
        ensures { result ≡ spec.may_subscribe user.now group.now path.now self.now }
    {
        is_root(user) || some_lets_subscribe(self.records.as_slice(), user, group, path)
    }

    /// Whether a client may send events of this id.
    pub fn may_send(&self, user: &[u8], group: &[u8], id: &[u8]) -> bool
        ensures { result ≡ spec.may_send user.now group.now id.now self.now }
    {
        is_root(user) || some_lets_send(self.records.as_slice(), user, group, id)
    }

    /// Whether a client may listen for the events whose ids this pattern fits.
    pub fn may_listen(&self, user: &[u8], group: &[u8], pattern: &[u8]) -> bool
        ensures { result ≡ spec.may_listen user.now group.now pattern.now self.now }
    {
        is_root(user) || some_lets_listen(self.records.as_slice(), user, group, pattern)
    }
}

fn read_list(alloc: Global, value: &Value) -> Result<Acl, AclError>
    ensures { result ≢ Err NoMemory → result ≡ acl_in (Some (view value.now)) }
{
    let Value::Array(items) = value else {
        return Err(AclError::BadJson);
    };
    Ok(Acl {
        records: read_records(alloc, items)?,
    })
}

fn is_root(user: &[u8]) -> bool
    ensures { result ≡ spec.is_root user.now }
{
    user == b"root".as_slice()
}

fn some_lets_call(rows: &[Record], user: &[u8], group: &[u8], object: &[u8], method: &[u8]) -> bool
    ensures { result ≡ list_any (lets (allows_call object.now method.now) user.now group.now)
        rows.now }
{
    rows.iter()
        .any(|row| row.lets_call(user, group, object, method))
}

fn some_lets_publish(rows: &[Record], user: &[u8], group: &[u8], path: &[u8]) -> bool
    ensures { result ≡ list_any (lets (allows_publish path.now) user.now group.now) rows.now }
{
    rows.iter().any(|row| row.lets_publish(user, group, path))
}

fn some_lets_subscribe(rows: &[Record], user: &[u8], group: &[u8], path: &[u8]) -> bool
    ensures { result ≡ list_any (lets (allows_subscribe path.now) user.now group.now) rows.now }
{
    rows.iter().any(|row| row.lets_subscribe(user, group, path))
}

fn some_lets_send(rows: &[Record], user: &[u8], group: &[u8], id: &[u8]) -> bool
    ensures { result ≡ list_any (lets (allows_send id.now) user.now group.now) rows.now }
{
    rows.iter().any(|row| row.lets_send(user, group, id))
}

fn some_lets_listen(rows: &[Record], user: &[u8], group: &[u8], pattern: &[u8]) -> bool
    ensures { result ≡ list_any (lets (allows_listen pattern.now) user.now group.now) rows.now }
{
    rows.iter().any(|row| row.lets_listen(user, group, pattern))
}

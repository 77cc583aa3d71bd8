ghost use Rattle.std.specs.Prelude.{◌≡◌, IfOk};
ghost use Rattle.std.specs.Option.{option_copied};
ghost use Rattle.std.specs.List.{find};
ghost use Rattle.ubus_table.specs.Table.{has_number, local_object, local_objects};
ghost use Rattle.ubus_state.specs.Own.{own_objects};

use crate::rows::{NO_CLIENT, find_object};
use plane_io::{Items, Memory, Text};
use std::alloc::Global;
use std::marker::Model;
use ubus_table::Object;

/// The event object and the local objects.
#[derive(Drop)]
pub struct OwnObjects {
    event: Object,
    local: Items<Object>,
}

impl Model for OwnObjects {
    ghost use Rattle.std.specs.Prelude.{◌≡◌};
    ghost use Rattle.ubus_table.specs.Table.{event_object, local_objects};

    ghost Value = { Unit {0} };

    ghost view = { λ own. tt };

    ghost invariant = { λ own. (own.event ≡ event_object) × (own.local ≡ local_objects) };
}

impl OwnObjects {
    pub fn new(alloc: Global) -> Result<OwnObjects, Memory> {
        let local = local_objects(alloc)?;
        Ok(OwnObjects {
            event: Object {
                number: 1,
                owner: NO_CLIENT,
                path: None,
                objtype: 0,
                signature: sqlite_items::Items::new(alloc),
            },
            local,
        })
    }

    pub fn find(&self, number: u64) -> Option<&Object>
        ensures { option_copied result ≡ find (has_number number) own_objects }
    {
        if u64::from(self.event.number) == number {
            return Some(&self.event);
        }
        find_object(self.local.as_slice(), number)
    }

    pub fn local(&self) -> &[Object]
        ensures { result.now ≡ local_objects }
    {
        self.local.as_slice()
    }
}

fn local_objects(alloc: Global) -> Result<Items<Object>, Memory>
    ensures { IfOk result (λ objects. objects ≡ local_objects) }
{
    let mut objects = Items::new(alloc);
    objects.push(local(alloc, 2, b"session")?)?;
    objects.push(local(alloc, 3, b"uci")?)?;
    objects.push(local(alloc, 4, b"network")?)?;
    objects.push(local(alloc, 5, b"network.device")?)?;
    objects.push(local(alloc, 6, b"network.interface")?)?;
    objects.push(local(alloc, 7, b"network.wireless")?)?;
    Ok(objects)
}

fn local(alloc: Global, number: u32, path: &[u8]) -> Result<Object, Memory>
    ensures { IfOk result (λ object. object ≡ local_object number path.now) }
{
    Ok(Object {
        number,
        owner: NO_CLIENT,
        path: Some(Text::from_bytes(alloc, path)?),
        objtype: number,
        signature: sqlite_items::Items::new(alloc),
    })
}

ghost use Rattle.std.specs.Prelude.{◌≡◌, IfOk};
ghost use Rattle.ubus_table.specs.Table.{nobody};
ghost use Rattle.ubus_state.specs.State.{table_of};

use crate::{CallRows, ClientRows, ObjectRows, OwnObjects, SubscriptionRows};
use plane_io::Memory;
use std::alloc::Global;
use ubus_acl::Acl;
use ubus_table::Registration;

const FIRST_NUMBER: u64 = 1025;

/// What the bus knows.
#[derive(Drop)]
pub struct Bus {
    pub alloc: Global,
    /// The event object and the local objects.
    pub own: OwnObjects,
    pub acl: Acl,
    pub clients: ClientRows,
    /// Those of clients.
    pub objects: ObjectRows,
    pub subscriptions: SubscriptionRows,
    pub registrations: Vec<Registration>,
    /// As they were opened.
    pub calls: CallRows,
}

impl Bus {
    /// A bus with the event object and the local objects alone.
    pub fn new(alloc: Global, acl: Acl) -> Result<Bus, Memory>
        ensures { IfOk result (λ bus. table_of bus ≡ nobody acl) }
    {
        Ok(Bus {
            alloc,
            own: OwnObjects::new(alloc)?,
            acl,
            clients: ClientRows::new(alloc, FIRST_NUMBER),
            objects: ObjectRows::new(alloc, FIRST_NUMBER),
            subscriptions: SubscriptionRows::new(alloc),
            registrations: Vec::new(alloc),
            calls: CallRows::new(alloc),
        })
    }
}

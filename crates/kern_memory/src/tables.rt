ghost use Rattle.std.specs.Prelude.{◌≡◌, ◌≤◌, ◌↔◌, IsTrue, OnOk, OnErr, IfOk};
ghost use Rattle.std.specs.FinMap as map;
ghost use Rattle.std.specs.FinSet as set;
ghost use Rattle.plane_words.specs.Distinct.{AreDistinct};
ghost use Rattle.kern_model.specs.ObjectOrder.{set_of};
ghost use Rattle.kern_model.specs.Kernel.{after_call, MayHappen, after_event, objects_after_event};
ghost use Rattle.kern_model.specs.Admission.{Admits};
ghost use Rattle.kern_memory.specs.Tables.{LacksObjectRoom, LacksDeviceRoom, CallKeepsRoom};
ghost use Rattle.kern_memory.specs.Tables.{EventKeepsRoom, lower_of, name_in};

use crate::devices::{add_device, remove_device, set_carrier};
use crate::objects::{change, remove_standing_on};
use indexmap::{IndexMap, IndexSet};
use kern_model::{Call, DevEvent, DevName, Device, LinkKind, Object, admits, may_happen};
use plane_io::Memory;
use std::alloc::Global;
use std::marker::Model;

/// The objects and the present devices of a kernel, in hash tables: a put, a take, a device that
/// comes and the news of a carrier look at none but the one that they change.
#[derive(Drop)]
pub(crate) struct Tables {
    objects: IndexSet<Object>,
    devices: IndexMap<DevName, Device>,
}

impl Model for Tables {
    ghost use Rattle.std.specs.Coded.{codes, coded_list, coded_ℕ};
    ghost use Rattle.std.specs.FinMap as map;
    ghost use Rattle.std.specs.FinSet as set;
    ghost use Rattle.std.specs.Ordering.{nat_cmp};
    ghost use Rattle.std.specs.Cmp.Lexicographic.{slice_cmp};
    ghost use Rattle.indexmap.specs.IndexMap as index_map;
    ghost use Rattle.indexmap.specs.IndexSet as index_set;
    ghost use Rattle.kern_model.specs.ObjectOrder.{object_cmp, set_of};
    ghost use Rattle.kern_model.specs.Kernel.{map_of};
    ghost use Rattle.kern_model.specs.contracts.object.Device as device;
    ghost use Rattle.kern_model.specs.contracts.object.Object as object;
    ghost use Rattle.kern_memory.specs.Tables.{KernelTables};

    ghost Value = { KernelTables };

    ghost coded = { Prim.hlevel (
      codes,
      set.code {R = object_cmp} object.the_row.coded,
      map.code {R = slice_cmp nat_cmp} (coded_list coded_ℕ) device.the_row.coded,
    ) };

    ghost view = { λ tables. record {
      objects = set_of tables.objects.keys;
      devices = map_of tables.devices.entries;
      object_room = index_set.spare tables.objects;
      device_room = index_map.spare tables.devices;
    } };
}

impl Tables {
    /// No objects and no devices. It takes no memory.
    pub(crate) fn new(alloc: Global) -> Tables
        ensures { (result.objects ≡ set.empty) × (result.devices ≡ map.empty) }
    {
        Tables {
            objects: IndexSet::new(alloc),
            devices: IndexMap::new(alloc),
        }
    }

    /// No objects and no devices, with room for `count` of each.
    pub(crate) fn with_room(alloc: Global, count: usize) -> Result<Tables, Memory>
        ensures empty { IfOk result (λ tables.
            (tables.objects ≡ set.empty) × (tables.devices ≡ map.empty)) }
        ensures room { IfOk result (λ tables.
            (count ≤ tables.object_room) × (count ≤ tables.device_room)) }
    {
        Ok(Tables {
            objects: IndexSet::with_capacity(alloc, count)?,
            devices: IndexMap::with_capacity(alloc, count)?,
        })
    }

    /// The objects, in no stated order, each once.
    pub(crate) fn objects(&self) -> &[Object]
        ensures objects { set_of result.now ≡ self.now.objects }
        ensures once { AreDistinct result.now }
    {
        self.objects.as_slice()
    }

    // The present device of that name.
    fn find(&self, name: &DevName) -> Option<Device>
        ensures { result ≡ map.get self.now.devices name.now }
    {
        self.devices.get(name).copied()
    }

    /// Whether the kernel admits the call. Of the devices only two can matter: that of the name of
    /// the object, and that of the name under a VLAN.
    pub(crate) fn admits(&self, call: &Call) -> bool
        ensures { IsTrue result ↔ Admits self.now.devices self.now.objects call.now }
    {
        let object = call.object();
        let name = object.name();
        let lower = lower_of(&object);
        let held = self.objects();
        match (self.find(&name), self.find(&lower)) {
            (Some(first), Some(second)) => admits(&[(name, first), (lower, second)], held, call),
            (Some(first), None) => admits(&[(name, first)], held, call),
            (None, Some(second)) => admits(&[(lower, second)], held, call),
            (None, None) => admits(&[], held, call),
        }
    }

    /// Whether the event may happen: a device that comes under a name that does not exist, or one
    /// that is present.
    pub(crate) fn may_happen(&self, event: &DevEvent) -> bool
        ensures { IsTrue result ↔ MayHappen self.now.devices self.now.objects event.now }
    {
        let name = name_in(event);
        match self.find(&name) {
            Some(device) => may_happen(&[(name, device)], self.objects(), event),
            None => may_happen(&[], self.objects(), event),
        }
    }

    /// Does what a call does. Where memory lacks, nothing changes.
    pub(crate) fn apply(&mut self, call: &Call) -> Result<(), Memory>
        ensures did { OnOk result (self.new.objects ≡ after_call self.old.objects call.now) }
        ensures err { OnErr result (self.new.objects ≡ self.old.objects) }
        ensures devices { self.new.devices ≡ self.old.devices }
        ensures full { OnErr result (LacksObjectRoom self.old call.now) }
        ensures room { CallKeepsRoom self.old self.new call.now }
    {
        change(&mut self.objects, call)
    }

    /// Does what an event does: what stands on a device that leaves goes with it. Where memory
    /// lacks, nothing changes.
    pub(crate) fn happen(&mut self, event: &DevEvent) -> Result<(), Memory>
        ensures did { OnOk result (self.new.devices ≡ after_event self.old.devices event.now) }
        ensures stayed { OnOk result (self.new.objects
            ≡ objects_after_event self.old.objects event.now) }
        ensures err { OnErr result ((self.new.devices ≡ self.old.devices)
            × (self.new.objects ≡ self.old.objects)) }
        ensures full { OnErr result (LacksDeviceRoom self.old event.now) }
        ensures room { EventKeepsRoom self.old self.new event.now }
    {
        match *event {
            DevEvent::Add {
                name,
                carrier,
                mtu,
                mac,
            } => add_device(&mut self.devices, &name, Device { carrier, mtu, mac }),
            DevEvent::Remove { name } => {
                remove_device(&mut self.devices, &name);
                remove_standing_on(&mut self.objects, &name);
                Ok(())
            }
            DevEvent::Carrier { name, on } => {
                set_carrier(&mut self.devices, &name, on);
                Ok(())
            }
        }
    }
}

// The name under a VLAN; of every other object that which it has.
fn lower_of(object: &Object) -> DevName
    ensures { result ≡ lower_of object.now }
{
    match object {
        Object::Link {
            kind: LinkKind::Vlan { lower, .. },
            ..
        } => *lower,
        _ => object.name(),
    }
}

// The name that an event happens to.
fn name_in(event: &DevEvent) -> DevName
    ensures { result ≡ name_in event.now }
{
    match event {
        DevEvent::Add { name, .. } => *name,
        DevEvent::Remove { name } => *name,
        DevEvent::Carrier { name, .. } => *name,
    }
}

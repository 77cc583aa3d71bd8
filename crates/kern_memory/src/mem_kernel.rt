ghost use Rattle.std.specs.Prelude.{◌≡◌, ◌≤◌, ◌⊎◌, ◌↔◌, ◌+◌, [], ◌∷◌, Some, None, IsTrue, is_ok};
ghost use Rattle.std.specs.Prelude.{OnOk, OnErr, IfOk, Contains, unwrap_or, length};
ghost use Rattle.std.specs.FinMap as map;
ghost use Rattle.std.specs.FinSet as set;
ghost use Rattle.plane_words.specs.Causes.{HasCause, next_count};
ghost use Rattle.plane_words.specs.Distinct.{AreDistinct};
ghost use Rattle.plane_words.specs.Growth.{Grows};
ghost use Rattle.kern_model.specs.ObjectOrder.{set_of};
ghost use Rattle.kern_model.specs.Kernel.{after_call, MayHappen, after_event, objects_after_event};
ghost use Rattle.kern_model.specs.Kernel.{Records};
ghost use Rattle.kern_model.specs.Admission.{Admits};
ghost use Rattle.kern_memory.specs.Tables.{LacksObjectRoom, CallKeepsRoom, EventKeepsRoom};
ghost use Rattle.kern_memory.specs.Log.{IsFull, HasRoom};
ghost use Rattle.kern_memory.specs.MemKernel.{objects_of, devices_of, IsFullForCall};
ghost use Rattle.kern_memory.specs.MemKernel.{IsFullForEvent, FailedBy};

use crate::log::Log;
use crate::tables::Tables;
use kern_model::{Asked, Call, DevEvent, Kernel, LinkKind, Object};
use plane_io::{Failed, Memory};
use std::alloc::Global;
use std::marker::Model;

/// A kernel in memory. A call fails where its number stands in the list of its kind, or where the
/// kernel cannot grow; then nothing changes.
#[derive(Drop)]
pub struct MemKernel {
    tables: Tables,
    calls: Log<Call>,
    asked: Log<Asked>,
    failing_apply: Vec<u64>,
    failing_environment: Vec<u64>,
    applied: u64,
    happened: u64,
    faults: u64,
    refused: u64,
}

impl Model for MemKernel {
    ghost use Rattle.std.specs.Coded.{codes, coded_list, coded_ℕ};
    ghost use Rattle.std.specs.FinMap as map;
    ghost use Rattle.std.specs.FinSet as set;
    ghost use Rattle.std.specs.Ordering.{nat_cmp};
    ghost use Rattle.std.specs.Cmp.Lexicographic.{slice_cmp};
    ghost use Rattle.kern_model.specs.ObjectOrder.{object_cmp};
    ghost use Rattle.kern_model.specs.contracts.object.Device as device;
    ghost use Rattle.kern_model.specs.contracts.object.Object as object;
    ghost use Rattle.kern_memory.specs.MemKernel.{KernelInMemory};

    ghost Value = { KernelInMemory };

    ghost coded = { Prim.hlevel (
      codes,
      set.code {R = object_cmp} object.the_row.coded,
      map.code {R = slice_cmp nat_cmp} (coded_list coded_ℕ) device.the_row.coded,
    ) };

    ghost view = { λ kernel. record {
      tables = kernel.tables;
      calls = kernel.calls;
      asked = kernel.asked;
      failing_apply = kernel.failing_apply.items;
      failing_environment = kernel.failing_environment.items;
      applied = kernel.applied;
      happened = kernel.happened;
      faults = kernel.faults;
      refused = kernel.refused;
    } };
}

impl MemKernel {
    /// A kernel without objects and devices, whose calls with these numbers fail. It keeps the
    /// lists of what it did and of all that was asked of it.
    pub fn new(alloc: Global, failing_apply: Vec<u64>, failing_environment: Vec<u64>) -> MemKernel
        ensures empty { (objects_of result ≡ set.empty) × (devices_of result ≡ map.empty) }
        ensures calls { result.calls.items ≡ Some [] }
        ensures asked { result.asked.items ≡ Some [] }
        ensures lists { (result.failing_apply ≡ failing_apply.items)
            × (result.failing_environment ≡ failing_environment.items) }
        ensures counts { (result.applied ≡ 0) × (result.happened ≡ 0) × (result.faults ≡ 0)
            × (result.refused ≡ 0) }
    {
        MemKernel {
            tables: Tables::new(alloc),
            calls: Log::kept(alloc),
            asked: Log::kept(alloc),
            failing_apply,
            failing_environment,
            applied: 0,
            happened: 0,
            faults: 0,
            refused: 0,
        }
    }

    /// A kernel without objects and devices, with room for `count` puts, devices that come and done
    /// calls. None of these fails, whatever their order.
    pub fn with_room(alloc: Global, count: usize) -> Result<MemKernel, Memory>
        ensures empty { IfOk result (λ kernel.
            (objects_of kernel ≡ set.empty) × (devices_of kernel ≡ map.empty)) }
        ensures calls { IfOk result (λ kernel. kernel.calls.items ≡ Some []) }
        ensures asked { IfOk result (λ kernel. kernel.asked.items ≡ None) }
        ensures lists { IfOk result (λ kernel. (kernel.failing_apply ≡ [])
            × (kernel.failing_environment ≡ [])) }
        ensures counts { IfOk result (λ kernel. (kernel.applied ≡ 0) × (kernel.happened ≡ 0)
            × (kernel.faults ≡ 0) × (kernel.refused ≡ 0)) }
        ensures room { IfOk result (λ kernel. (count ≤ kernel.tables.object_room)
            × (count ≤ kernel.tables.device_room) × (count ≤ kernel.calls.most)) }
    {
        Ok(MemKernel {
            tables: Tables::with_room(alloc, count)?,
            calls: Log::with_room(alloc, count)?,
            asked: Log::unkept(alloc),
            failing_apply: Vec::new(alloc),
            failing_environment: Vec::new(alloc),
            applied: 0,
            happened: 0,
            faults: 0,
            refused: 0,
        })
    }

    /// A kernel without objects and devices that keeps no lists and whose calls are not made to
    /// fail. It fails at no take, and at a put or an event only where it cannot grow.
    pub fn unlogged(alloc: Global) -> MemKernel
        ensures empty { (objects_of result ≡ set.empty) × (devices_of result ≡ map.empty) }
        ensures calls { result.calls.items ≡ None }
        ensures asked { result.asked.items ≡ None }
        ensures lists { (result.failing_apply ≡ []) × (result.failing_environment ≡ []) }
        ensures counts { (result.applied ≡ 0) × (result.happened ≡ 0) × (result.faults ≡ 0)
            × (result.refused ≡ 0) }
    {
        MemKernel {
            tables: Tables::new(alloc),
            calls: Log::unkept(alloc),
            asked: Log::unkept(alloc),
            failing_apply: Vec::new(alloc),
            failing_environment: Vec::new(alloc),
            applied: 0,
            happened: 0,
            faults: 0,
            refused: 0,
        }
    }

    /// The objects, in no stated order, each once.
    pub fn objects(&self) -> &[Object]
        ensures objects { set_of result.now ≡ objects_of self.now }
        ensures once { AreDistinct result.now }
    {
        self.tables.objects()
    }

    /// The calls of `apply` that were done, in order. Of a kernel that keeps no list this is empty.
    pub fn calls(&self) -> &[Call]
        ensures { result.now ≡ unwrap_or self.now.calls.items [] }
    {
        self.calls.as_slice()
    }

    /// All that was asked, calls and events in order. Of a kernel that keeps no list this is empty.
    pub fn asked(&self) -> &[Asked]
        ensures { result.now ≡ unwrap_or self.now.asked.items [] }
    {
        self.asked.as_slice()
    }

    /// Whether the kernel admits the call.
    pub fn admits(&self, call: &Call) -> bool
        ensures { IsTrue result ↔ Admits (devices_of self.now) (objects_of self.now) call.now }
    {
        self.tables.admits(call)
    }

    /// Whether the event may happen: a device that comes under a name that does not exist, or one
    /// that is present.
    pub fn may_happen(&self, event: &DevEvent) -> bool
        ensures { IsTrue result
            ↔ MayHappen (devices_of self.now) (objects_of self.now) event.now }
    {
        self.tables.may_happen(event)
    }

    /// How many growths were refused for want of memory.
    pub fn refused(&self) -> u64
        ensures { result ≡ self.now.refused }
    {
        self.refused
    }
}

impl Kernel for MemKernel {
    ghost objects = { objects_of };

    ghost devices = { devices_of };

    ghost calls = { λ kernel. kernel.calls.items };

    ghost asked = { λ kernel. kernel.asked.items };

    ghost faults = { λ kernel. kernel.faults };

    fn apply(&mut self, call: &Call) -> Result<(), Failed>
        requires { Admits (devices_of self.old) (objects_of self.old) call.now }
        ensures did { OnOk result (objects_of self.new
            ≡ after_call (objects_of self.old) call.now) }
        ensures logged { OnOk result
            (Grows self.old.calls.items self.new.calls.items (call.now ∷ [])) }
        ensures err { OnErr result ((objects_of self.new ≡ objects_of self.old)
            × (self.new.calls.items ≡ self.old.calls.items)) }
        ensures asked { Records self.old.asked.items self.new.asked.items
            (Asked.Call call.now (is_ok result) ∷ []) }
        ensures devices { devices_of self.new ≡ devices_of self.old }
        ensures cause { HasCause self.old.faults self.new.faults result }

        // A call fails exactly where its number is in the list, or where what it makes longer is
        // full and cannot grow.
        ensures number { (self.new.applied ≡ next_count self.old.applied)
            × (self.new.happened ≡ self.old.happened) }
        ensures lists { (self.new.failing_apply ≡ self.old.failing_apply)
            × (self.new.failing_environment ≡ self.old.failing_environment) }
        ensures fails { OnErr result (FailedBy
            (Contains self.old.failing_apply self.new.applied) (IsFullForCall self.old call.now)
            self.old.refused self.new.refused) }
        ensures one_fault { OnErr result (self.new.faults ≡ next_count self.old.faults) }
        ensures passes { OnOk result ((¬ (Contains self.old.failing_apply self.new.applied))
            × (self.new.refused ≡ self.old.refused)) }
        ensures faultless { OnOk result (self.new.faults ≡ self.old.faults) }

        // What was asked is kept until a growth of its list is refused.
        ensures kept { self.new.asked.items ≡ None → (self.old.asked.items ≡ None)
            ⊎ IsFull self.old.asked.items self.old.asked.most }

        // No room is lost but the place of what is put.
        ensures room { CallKeepsRoom self.old.tables self.new.tables call.now }
        ensures most { self.old.calls.most ≤ self.new.calls.most }
    {
        // What is below is proved only where a local names the enums within.
        let _named: Option<(DevEvent, Object, LinkKind)> = None;
        self.applied = self.applied.saturating_add(1);
        let Ok(()) = self.asked.make_room() else {
            self.asked.stop();
            self.refused = self.refused.saturating_add(1);
            self.faults = self.faults.saturating_add(1);
            return Err(Failed);
        };
        if self.failing_apply.contains(&self.applied) {
            self.asked.push(Asked::Call {
                call: *call,
                done: false,
            });
            self.faults = self.faults.saturating_add(1);
            return Err(Failed);
        }
        let Ok(()) = carry_out(&mut self.tables, &mut self.calls, call) else {
            self.asked.push(Asked::Call {
                call: *call,
                done: false,
            });
            self.refused = self.refused.saturating_add(1);
            self.faults = self.faults.saturating_add(1);
            return Err(Failed);
        };
        self.asked.push(Asked::Call {
            call: *call,
            done: true,
        });
        Ok(())
    }

    fn environment(&mut self, event: &DevEvent) -> Result<(), Failed>
        requires { MayHappen (devices_of self.old) (objects_of self.old) event.now }
        ensures did { OnOk result (devices_of self.new
            ≡ after_event (devices_of self.old) event.now) }
        ensures stayed { OnOk result (objects_of self.new
            ≡ objects_after_event (objects_of self.old) event.now) }
        ensures err { OnErr result ((devices_of self.new ≡ devices_of self.old)
            × (objects_of self.new ≡ objects_of self.old)) }
        ensures calls { self.new.calls.items ≡ self.old.calls.items }
        ensures asked { Records self.old.asked.items self.new.asked.items
            (Asked.Event event.now (is_ok result) ∷ []) }
        ensures cause { HasCause self.old.faults self.new.faults result }

        // A call fails exactly where its number is in the list, or where what it makes longer is
        // full and cannot grow.
        ensures number { (self.new.happened ≡ next_count self.old.happened)
            × (self.new.applied ≡ self.old.applied) }
        ensures lists { (self.new.failing_apply ≡ self.old.failing_apply)
            × (self.new.failing_environment ≡ self.old.failing_environment) }
        ensures fails { OnErr result (FailedBy
            (Contains self.old.failing_environment self.new.happened)
            (IsFullForEvent self.old event.now) self.old.refused self.new.refused) }
        ensures one_fault { OnErr result (self.new.faults ≡ next_count self.old.faults) }
        ensures passes { OnOk result ((¬ (Contains self.old.failing_environment self.new.happened))
            × (self.new.refused ≡ self.old.refused)) }
        ensures faultless { OnOk result (self.new.faults ≡ self.old.faults) }

        // What was asked is kept until a growth of its list is refused.
        ensures kept { self.new.asked.items ≡ None → (self.old.asked.items ≡ None)
            ⊎ IsFull self.old.asked.items self.old.asked.most }

        // No room is lost but the place of a device that comes.
        ensures room { EventKeepsRoom self.old.tables self.new.tables event.now }
        ensures most { self.old.calls.most ≤ self.new.calls.most }
    {
        // What is below is proved only where a local names the enums within.
        let _named: Option<(Call, Object, LinkKind)> = None;
        self.happened = self.happened.saturating_add(1);
        let Ok(()) = self.asked.make_room() else {
            self.asked.stop();
            self.refused = self.refused.saturating_add(1);
            self.faults = self.faults.saturating_add(1);
            return Err(Failed);
        };
        if self.failing_environment.contains(&self.happened) {
            self.asked.push(Asked::Event {
                event: *event,
                done: false,
            });
            self.faults = self.faults.saturating_add(1);
            return Err(Failed);
        }
        let Ok(()) = self.tables.happen(event) else {
            self.asked.push(Asked::Event {
                event: *event,
                done: false,
            });
            self.refused = self.refused.saturating_add(1);
            self.faults = self.faults.saturating_add(1);
            return Err(Failed);
        };
        self.asked.push(Asked::Event {
            event: *event,
            done: true,
        });
        Ok(())
    }
}

// Does the call, and lists it among those that were done. Where memory lacks, nothing changes.
fn carry_out(tables: &mut Tables, calls: &mut Log<Call>, call: &Call) -> Result<(), Memory>
    ensures did { OnOk result (tables.new.objects ≡ after_call tables.old.objects call.now) }
    ensures logged { OnOk result (Grows calls.old.items calls.new.items (call.now ∷ [])) }
    ensures err { OnErr result ((tables.new.objects ≡ tables.old.objects)
        × (calls.new.items ≡ calls.old.items)) }
    ensures devices { tables.new.devices ≡ tables.old.devices }
    ensures full { OnErr result (IsFull calls.old.items calls.old.most
        ⊎ LacksObjectRoom tables.old call.now) }
    ensures room { CallKeepsRoom tables.old tables.new call.now }
    ensures most { calls.old.most ≤ calls.new.most }
{
    // A push is proved only where a local names the enums within.
    let _named: Option<(Object, LinkKind)> = None;
    let Ok(()) = calls.make_room() else {
        return Err(Memory);
    };
    let Ok(()) = tables.apply(call) else {
        return Err(Memory);
    };
    calls.push(*call);
    Ok(())
}

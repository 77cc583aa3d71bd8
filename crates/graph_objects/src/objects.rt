ghost use Rattle.std.specs.Prelude.{◌≡◌, ◌≤◌, ◌^◌, map, filter, nat_lt, IfSome, IfNone, OnOk};
ghost use Rattle.std.specs.Prelude.{OnErr, true, []};
ghost use Rattle.std.specs.FinSet as set;
ghost use Rattle.std.specs.List.{list_any};
ghost use Rattle.kern_model.specs.AdmissionTest.{is_link_of};
ghost use Rattle.kern_model.specs.ObjectOrder.{Has};
ghost use Rattle.kern_model.specs.Standing.{gone};
ghost use Rattle.kern_model.specs.Kernel.{after_call};
ghost use Rattle.kern_model.specs.Touched as touched;
ghost use Rattle.kern_calls.specs.Due.{due_count};
ghost use Rattle.graph_objects.specs.Marks.{no_marks, held_of, wanted_of, judged};
ghost use Rattle.graph_objects.specs.Decided.{StandOnWanted, judged_by};
ghost use Rattle.graph_objects.specs.Turns.{IsFirst};
ghost use Rattle.graph_objects.specs.Grown.{CanExpect, HasMore};

use crate::bits::Bits;
use crate::key::ObjectKey;
use crate::order::{Order, drop_done, first_of, is_next, make_room, no_order, put_in_order};
use crate::slot::{Side, Slot, Wish};
use crate::slots::has;
use crate::turn::Turn;
use crate::{changes, due, forgetting, growth, judging, links};
use indexmap::IndexMap;
use kern_model::{Call, DevName, Object};
use plane_io::Memory;
use std::alloc::Global;
use std::marker::Model;

/// The objects that are held on devices, and those that may be wanted there.
#[derive(Drop)]
pub struct DeviceObjects {
    slots: IndexMap<ObjectKey, Slot>,
    /// The slots of which an object may be taken or put, by their indexes.
    marks: Bits,
    /// For each id the slots of which it decides the wish, by their indexes.
    by_id: Vec<Vec<usize>>,
    /// What is due, in the order of its calls, while that is kept.
    order: Order,
}

impl Model for DeviceObjects {
    ghost use Rattle.graph_objects.specs.Marks.{Marks};

    ghost Value = { Marks };

    ghost use Rattle.graph_objects.specs.Inside.{marks_of, IsKept};

    ghost view = { marks_of };

    ghost invariant = { IsKept };
}

impl DeviceObjects {
    /// No objects.
    pub fn new(alloc: Global) -> DeviceObjects
        ensures { result ≡ no_marks }
    {
        DeviceObjects {
            slots: IndexMap::new(alloc),
            marks: Bits::new(alloc),
            by_id: Vec::new(alloc),
            order: no_order(alloc),
        }
    }

    /// An object may be wanted, where the names of its two ids are used. No other of its key may.
    ///
    /// # Errors
    ///
    /// `Memory` where there is not enough of it. Then all stays.
    pub fn expect(&mut self, wish: Wish) -> Result<(), Memory>
        requires { CanExpect self.old.wishes wish }
        ensures held { self.new.held ≡ self.old.held }
        ensures ok { OnOk result (HasMore self.old.wishes self.new.wishes wish) }
        ensures err { OnErr result (self.new.wishes ≡ self.old.wishes) }
    {
        self.order.is_kept = false;
        make_room(&mut self.order, self.slots.len() + 1)?;
        growth::expect(&mut self.slots, &mut self.marks, &mut self.by_id, wish)
    }

    /// What ids from a number on decide may not be wanted any more.
    pub fn forget_from(&mut self, count: usize)
        ensures held { self.new.held ≡ self.old.held }
        ensures wishes { self.new.wishes ≡ filter (λ w. nat_lt w.first count) self.old.wishes }
    {
        self.order.is_kept = false;
        forgetting::forget_from(&mut self.slots, &mut self.marks, count);
    }

    /// What others hold is held, where nothing is held yet.
    ///
    /// # Errors
    ///
    /// `Memory` where there is not enough of it. Then a part of it may be held.
    pub fn keep_all(&mut self, old: &DeviceObjects) -> Result<(), Memory>
        requires { self.old.held ≡ [] }
        ensures ok { OnOk result (held_of self.new ≡ held_of old.now) }
        ensures wishes { self.new.wishes ≡ self.old.wishes }
    {
        self.order.is_kept = false;
        make_room(&mut self.order, self.slots.len() + old.slots.len())?;
        growth::keep_all(&mut self.slots, &mut self.marks, &old.slots)
    }

    /// Whether an object is held.
    pub fn held(&self, object: &Object) -> bool
        ensures { result ≡ set.contains (held_of self.now) object.now }
    {
        has(&self.slots, Side::Held, object)
    }

    /// Whether an object is wanted.
    pub fn wanted(&self, object: &Object) -> bool
        ensures { result ≡ set.contains (wanted_of self.now) object.now }
    {
        has(&self.slots, Side::Wanted, object)
    }

    /// Whether a link of that name is held, of whatever kind.
    pub fn holds_link(&self, name: &DevName) -> bool
        ensures { result ≡ list_any (is_link_of name.now) (set.items (held_of self.now)) }
    {
        links::holds_link(&self.slots, name)
    }

    /// Whether a name is that of a link that is taken, or over one.
    pub fn loses_link(&self, name: &DevName) -> bool
        ensures { result ≡ touched.loses_link (held_of self.now) (wanted_of self.now) name.now }
    {
        due::loses_link(&self.slots, name)
    }

    /// The calls that come next are put in order, so that each is found at once. Nothing else is
    /// seen of it.
    pub fn prepare(&mut self)
        ensures { self.new ≡ self.old }
    {
        put_in_order(&self.slots, &self.marks, &mut self.order);
    }

    /// The object that is taken first.
    pub fn first_take(&self) -> Option<Object>
        ensures some { IfSome result (IsFirst Turn.Takes (held_of self.now) (wanted_of self.now)) }
        ensures none { IfNone result ((o : Object)
            → touched.is_taken (held_of self.now) (wanted_of self.now) o ≡ true → ⊥) }
    {
        let order = &self.order;
        first_of(
            &self.slots,
            &self.marks,
            Turn::Takes,
            order.is_kept,
            &order.takes,
        )
    }

    /// The object that is put first.
    pub fn first_put(&self) -> Option<Object>
        ensures some { IfSome result (IsFirst Turn.Puts (held_of self.now) (wanted_of self.now)) }
        ensures none { IfNone result ((o : Object)
            → touched.is_put (held_of self.now) (wanted_of self.now) o ≡ true → ⊥) }
    {
        let order = &self.order;
        first_of(
            &self.slots,
            &self.marks,
            Turn::Puts,
            order.is_kept,
            &order.puts,
        )
    }

    /// How many objects are held and not wanted, or wanted and not held.
    pub fn due(&self) -> u64
        ensures due { result ≡ due_count (held_of self.now) (wanted_of self.now) }
        ensures few { result ≤ 2 ^ 62 }
    {
        due::count(&self.slots, &self.marks)
    }

    /// A held object was taken.
    pub fn take(&mut self, object: &Object)
        requires { Has (held_of self.old) object.now }
        ensures held { held_of self.new ≡ set.remove (held_of self.old) object.now }
        ensures wishes { self.new.wishes ≡ self.old.wishes }
    {
        let stays = is_next(&self.slots, &self.order, object);
        changes::take(&mut self.slots, &mut self.marks, object);
        self.order.is_kept = stays;
        drop_done(&self.slots, Turn::Takes, &mut self.order.takes);
    }

    /// A wanted object was put, where none was to be taken.
    pub fn put(&mut self, object: &Object)
        requires wanted { Has (wanted_of self.old) object.now }
        requires taken { (o : Object)
            → touched.is_taken (held_of self.old) (wanted_of self.old) o ≡ true → ⊥ }
        ensures held { held_of self.new ≡ after_call (held_of self.old) (Call.Put object.now) }
        ensures wishes { self.new.wishes ≡ self.old.wishes }
    {
        changes::put(&mut self.slots, &mut self.marks, object);
        drop_done(&self.slots, Turn::Puts, &mut self.order.puts);
    }

    /// A device of that name is gone, and what stands on it with it.
    pub fn leave(&mut self, name: &DevName)
        ensures held { held_of self.new ≡ gone (held_of self.old) name.now }
        ensures wishes { self.new.wishes ≡ self.old.wishes }
    {
        self.order.is_kept = false;
        changes::leave(&mut self.slots, &mut self.marks, name);
    }

    /// An object is wanted where the names of its two ids are used.
    pub fn judge(&mut self, used: &[bool])
        ensures held { self.new.held ≡ self.old.held }
        ensures wishes { self.new.wishes ≡ map (judged used.now) self.old.wishes }
    {
        self.order.is_kept = false;
        judging::judge(&mut self.slots, &mut self.marks, used);
    }

    /// An object that one of these ids decides is wanted where the names of its two ids are used;
    /// others stay as they are. The ids come together, since what is then wanted has to stand on
    /// links that are wanted. Where there is none, the order of calls is kept.
    pub fn judge_ids(&mut self, used: &[bool], ids: &[usize])
        requires { StandOnWanted (map (judged_by used.now ids.now) self.old.wishes) }
        ensures held { self.new.held ≡ self.old.held }
        ensures wishes { self.new.wishes ≡ map (judged_by used.now ids.now) self.old.wishes }
    {
        if ids.is_empty() {
            return;
        }
        self.order.is_kept = false;
        judging::judge_ids(&mut self.slots, &mut self.marks, &self.by_id, used, ids);
    }
}

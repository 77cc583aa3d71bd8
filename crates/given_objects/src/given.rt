ghost use Rattle.std.specs.Prelude.{◌≡◌, ◌<◌, ◌^◌, Some, length, filter, slice_get, IfSome, IfNone};
ghost use Rattle.std.specs.Prelude.{OnOk, OnErr, IfOk, Contains, true, false, []};
ghost use Rattle.kern_model.specs.declared.object.Object.{Object};
ghost use Rattle.kern_model.specs.declared.object.Call.TheVariants.{Put};
ghost use Rattle.kern_calls.specs.Due.{due_count};
ghost use Rattle.kern_calls.specs.Upper.{is_upper};
ghost use Rattle.given_objects.specs.Gifts.{has_place, givers_of, held_of, given_of, AreGifts};
ghost use Rattle.given_objects.specs.Changes.{with_place, given_once_more, given_once_less, noted};
ghost use Rattle.given_objects.specs.Changes.{with_lost_link, is_live, with_live, kept_for};
ghost use Rattle.given_objects.specs.First.{is_take_due, is_put_due, plain_take, IsFirstGift};
ghost use Rattle.given_objects.specs.First.{NoneDue};

use crate::first::{Turn, first, is_due};
use crate::form::has_form;
use crate::gift::{Counts, Gift};
use crate::key::GiftKey;
use crate::order::{Order, gift_at, go_on, last_due, make_room, no_order, put_in_order, turn_of};
use crate::places::{add_place, list_place};
use indexmap::IndexMap;
use kern_model::{LinkKind, Object};
use plane_io::Memory;
use std::alloc::Global;
use std::marker::Model;

/// The addresses and routes that interfaces give, each with how many give it, whether it is held,
/// and whether the name that it is on loses its link.
#[derive(Drop)]
pub struct GivenObjects {
    table: IndexMap<GiftKey, Counts>,
    /// What is to be taken and put, in the order of its calls, while that is kept, and the places
    /// at which something may come.
    order: Order,
}

impl Model for GivenObjects {
    ghost use Rattle.given_objects.specs.Gifts.{Gifts};

    ghost Value = { Gifts };

    ghost use Rattle.given_objects.specs.Inside.{gifts_in, IsKept};

    ghost view = { gifts_in };

    ghost invariant = { IsKept };
}

impl GivenObjects {
    /// No gifts.
    pub fn new(alloc: Global) -> GivenObjects
        ensures { result ≡ [] }
    {
        GivenObjects {
            table: IndexMap::new(alloc),
            order: no_order(alloc),
        }
    }

    /// A place for an address or a route that may be given.
    ///
    /// # Errors
    ///
    /// `Memory` where there is not enough of it. Then all stays.
    pub fn expect(&mut self, object: &Object) -> Result<(), Memory>
        requires { is_upper object.now ≡ true }
        ensures ok { OnOk result (self.new ≡ with_place self.old object.now) }
        ensures err { OnErr result (self.new ≡ self.old) }
    {
        // A put into a map is proved only where a local names the enums within.
        let _named: Option<LinkKind> = None;
        has_form(object);
        let key = GiftKey(*object);
        if self.table.contains_key(&key) {
            return Ok(());
        }
        self.order.is_kept = false;
        make_room(&mut self.order, self.table.len() + 1)?;
        let counts = Counts {
            givers: 0,
            held: false,
            loses_link: false,
        };
        let _none = self.table.insert(key, counts)?;
        add_place(&mut self.order.places);
        Ok(())
    }

    /// One more gives it.
    pub fn give(&mut self, object: &Object)
        requires place { has_place self.old object.now ≡ true }
        requires few { givers_of self.old object.now < 2 ^ 62 }
        ensures { self.new ≡ given_once_more self.old object.now }
    {
        let Some(place) = self.table.get_index_of(&GiftKey(*object)) else {
            return;
        };
        self.order.is_kept = false;
        self.table[place].givers += 1;
        list_place(&mut self.order.places, place);
    }

    /// One less gives it.
    pub fn withdraw(&mut self, object: &Object)
        requires { 0 < givers_of self.old object.now }
        ensures { self.new ≡ given_once_less self.old object.now }
    {
        let Some(place) = self.table.get_index_of(&GiftKey(*object)) else {
            return;
        };
        self.order.is_kept = false;
        self.table[place].givers -= 1;
        list_place(&mut self.order.places, place);
    }

    /// It was put and is held, or was taken and is not. Then its name does not fall. Where that was
    /// due, what is left stays in order.
    pub fn note(&mut self, object: &Object, held: bool)
        requires { has_place self.old object.now ≡ true }
        ensures { self.new ≡ noted self.old object.now held }
    {
        let Some(place) = self.table.get_index_of(&GiftKey(*object)) else {
            return;
        };
        let turn = turn_of(held);
        let was_due = is_due(turn, &gift_at(&self.table, place));
        let givers = self.table[place].givers;
        self.table[place] = Counts {
            givers,
            held,
            loses_link: false,
        };
        self.order.is_kept &= was_due;
        go_on(&self.table, turn, &mut self.order);
        list_place(&mut self.order.places, place);
    }

    /// Whether the name of the gift at a place loses its link.
    pub fn note_lost_link(&mut self, place: usize, loses_link: bool)
        requires { place < length self.old }
        ensures { self.new ≡ with_lost_link self.old place loses_link }
    {
        if self.table[place].loses_link == loses_link {
            return;
        }
        self.order.is_kept = false;
        self.table[place].loses_link = loses_link;
        list_place(&mut self.order.places, place);
    }

    /// How many gifts there are.
    pub fn len(&self) -> usize
        ensures length { result ≡ length self.now }
        ensures few { result < 2 ^ 63 }
        ensures gifts { AreGifts self.now }
    {
        self.table.len()
    }

    /// The gift at a place.
    pub fn gift(&self, place: usize) -> Gift
        requires { place < length self.now }
        ensures { slice_get self.now place ≡ Some result }
    {
        gift_at(&self.table, place)
    }

    /// What is to be taken and put is put in order, so that the first is found at once. Nothing
    /// else is seen of it, and it takes no memory. It looks at what was touched since the last
    /// time, and at what came then.
    pub fn prepare(&mut self)
        ensures { self.new ≡ self.old }
    {
        put_in_order(&self.table, &mut self.order);
    }

    /// The address or route that is taken first.
    pub fn first_take(&self) -> Option<Object>
        ensures some { IfSome result (IsFirstGift is_take_due plain_take self.now) }
        ensures none { IfNone result (NoneDue is_take_due self.now) }
    {
        if self.order.is_kept {
            return last_due(&self.table, Turn::Takes, &self.order.takes);
        }
        first(self, Turn::Takes)
    }

    /// The address or route that is put first.
    pub fn first_put(&self) -> Option<Object>
        ensures some { IfSome result (IsFirstGift is_put_due Put self.now) }
        ensures none { IfNone result (NoneDue is_put_due self.now) }
    {
        if self.order.is_kept {
            return last_due(&self.table, Turn::Puts, &self.order.puts);
        }
        first(self, Turn::Puts)
    }

    /// How many objects are held and not given, or given and not held.
    pub fn due(&self) -> u64
        ensures { result ≡ due_count (held_of self.now) (given_of self.now) }
    {
        let mut count = 0;
        for place in 0..self.len() {
            count += self.gift(place).alone();
        }
        count
    }

    /// The gifts that are held or given, with places for some others, and no room for more.
    ///
    /// # Errors
    ///
    /// `Memory` where there is not enough of it.
    pub fn kept(&self, alloc: Global, keep: &[Object]) -> Result<GivenObjects, Memory>
        requires { (o : Object) → Contains keep.now o → is_upper o ≡ true }
        ensures { IfOk result (λ kept. kept ≡ kept_for self.now keep.now) }
    {
        let mut kept = self.live(alloc)?;
        for object in keep {
            kept.expect(object)?;
        }
        Ok(kept)
    }

    /// The gifts that are held or given.
    fn live(&self, alloc: Global) -> Result<GivenObjects, Memory>
        ensures { IfOk result (λ live. live ≡ filter is_live self.now) }
    {
        let mut live = GivenObjects::new(alloc);
        for place in 0..self.len() {
            live.keep(&self.gift(place))?;
        }
        Ok(live)
    }

    /// One more gift, as it is, where it is held or given. None of its object is there.
    fn keep(&mut self, gift: &Gift) -> Result<(), Memory>
        requires new { has_place self.old gift.now.object ≡ false }
        requires upper { is_upper gift.now.object ≡ true }
        ensures { OnOk result (self.new ≡ with_live self.old gift.now) }
    {
        // A put into a map is proved only where a local names the enums within.
        let _named: Option<LinkKind> = None;
        if !gift.is_live() {
            return Ok(());
        }
        has_form(&gift.object);
        self.order.is_kept = false;
        make_room(&mut self.order, self.table.len() + 1)?;
        let counts = Counts {
            givers: gift.givers,
            held: gift.held,
            loses_link: gift.loses_link,
        };
        let _none = self.table.insert(GiftKey(gift.object), counts)?;
        add_place(&mut self.order.places);
        Ok(())
    }
}

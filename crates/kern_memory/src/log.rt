ghost use Rattle.std.specs.Prelude.{◌≡◌, ◌≤◌, [], ◌∷◌, Some, None, OnOk, OnErr, IfOk, unwrap_or};
ghost use Rattle.plane_words.specs.Growth.{Grows};
ghost use Rattle.kern_memory.specs.Log.{KeptLog, IsFull, HasRoom};

use plane_io::Memory;
use std::alloc::{AllocError, Global};
use std::marker::Model;

/// A list that grows at its end, where it is kept. Contracts see it, and how many items it has
/// memory for.
#[derive(Drop)]
pub(crate) struct Log<T> {
    is_kept: bool,
    list: Vec<T>,
}

impl<T> Model for Log<T> {
    ghost use Rattle.std.specs.Prelude.{vec_capacity, if◌then◌else◌, Some, None};
    ghost use Rattle.kern_memory.specs.Log.{KeptLog};

    ghost Value = { KeptLog T };

    ghost view = { λ log. record {
      items = if log.is_kept then Some log.list.items else None;
      most = vec_capacity log.list;
    } };
}

impl<T> Log<T> {
    /// A list that is kept, empty at first.
    pub(crate) fn kept(alloc: Global) -> Log<T>
        ensures { result.items ≡ Some [] }
    {
        Log {
            is_kept: true,
            list: Vec::new(alloc),
        }
    }

    /// A list that is kept, with room for `count` items.
    pub(crate) fn with_room(alloc: Global, count: usize) -> Result<Log<T>, Memory>
        ensures items { IfOk result (λ log. log.items ≡ Some []) }
        ensures room { IfOk result (λ log. count ≤ log.most) }
    {
        Ok(Log {
            is_kept: true,
            list: Vec::with_capacity(alloc, count)?,
        })
    }

    /// A list that is not kept.
    pub(crate) fn unkept(alloc: Global) -> Log<T>
        ensures { result.items ≡ None }
    {
        Log {
            is_kept: false,
            list: Vec::new(alloc),
        }
    }

    /// The items; none where they are not kept.
    pub(crate) fn as_slice(&self) -> &[T]
        ensures { result.now ≡ unwrap_or self.now.items [] }
    {
        if self.is_kept {
            self.list.as_slice()
        } else {
            &[]
        }
    }

    /// Takes room for one more where they are kept.
    pub(crate) fn make_room(&mut self) -> Result<(), AllocError>
        ensures items { self.new.items ≡ self.old.items }
        ensures room { OnOk result (HasRoom self.new.items self.new.most) }
        ensures full { OnErr result (IsFull self.old.items self.old.most) }
        ensures most { self.old.most ≤ self.new.most }
    {
        if self.is_kept {
            self.list.reserve(1)
        } else {
            Ok(())
        }
    }

    /// Adds an item where they are kept. There has to be room.
    pub(crate) fn push(&mut self, item: T)
    where
        T: Drop,
        requires { HasRoom self.old.items self.old.most }
        ensures grows { Grows self.old.items self.new.items (item ∷ []) }
        ensures most { self.new.most ≡ self.old.most }
    {
        if self.is_kept {
            self.list.push_reserved(item);
        }
    }

    /// Keeps them no longer.
    pub(crate) fn stop(&mut self)
        ensures items { self.new.items ≡ None }
        ensures most { self.new.most ≡ self.old.most }
    {
        self.is_kept = false;
    }
}

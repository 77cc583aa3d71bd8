//! What is told of requests that were lost or opened.
ghost use Rattle.std.specs.Prelude.{◌≡◌, ◌≤◌, ◌<◌, ◌+◌, ◌++◌, ◌∷◌, [], ◌↔◌, ◌==◌, ℕ, List};
ghost use Rattle.std.specs.Prelude.{Contains, map, length, vec_capacity};
ghost use Rattle.std.specs.VecDeque.{deque_len, deque_capacity};
ghost use Rattle.std.specs.List.{IsDistinct};
ghost use Rattle.std.specs.List.Sorted.{IsStrictlySortedBy};
ghost use Rattle.std.specs.Ordering.{nat_cmp};
ghost use Rattle.net_rules.specs.declared.event.Notice.TheVariants as notice;
ghost use Rattle.state_requests.specs.Telling.{notice_of};

use kern_model::DevName;
use net_rules::Notice;
use std::collections::VecDeque;

/// The numbers of the requests that were lost are told, rising.
pub(crate) fn tell_lost(lost: &mut Vec<u64>, notices: &mut VecDeque<Notice>)
    requires once { IsDistinct (λ a b. a == b) lost.old.items }
    requires room { deque_len notices.old + length lost.old.items ≤ deque_capacity notices.old }
    ensures told { (numbers : List ℕ) × IsStrictlySortedBy nat_cmp numbers
        × ((n : ℕ) → Contains numbers n ↔ Contains lost.old.items n)
        × (notices.new.items ≡ notices.old.items ++ map notice.Dropped numbers) }
    ensures len { deque_len notices.new ≡ deque_len notices.old + length lost.old.items }
    ensures room { vec_capacity lost.new ≡ vec_capacity lost.old }
    ensures capacity { deque_capacity notices.new ≡ deque_capacity notices.old }
{
    lost.sort_unstable();
    tell_all(lost.as_slice(), notices);
}

// Some numbers are told one after the other.
fn tell_all(lost: &[u64], notices: &mut VecDeque<Notice>)
    requires { deque_len notices.old + length lost.now ≤ deque_capacity notices.old }
    ensures told { notices.new.items ≡ notices.old.items ++ map notice.Dropped lost.now }
    ensures len { deque_len notices.new ≡ deque_len notices.old + length lost.now }
    ensures capacity { deque_capacity notices.new ≡ deque_capacity notices.old }
{
    for number in lost {
        tell_one(*number, None, notices);
    }
}

/// It is told that a request was lost, or opened for the row at a place.
pub(crate) fn tell_one(
    number: u64,
    opened: Option<(usize, Option<DevName>)>,
    notices: &mut VecDeque<Notice>,
)
    requires { deque_len notices.old < deque_capacity notices.old }
    ensures told { notices.new.items ≡ notices.old.items ++ notice_of number opened ∷ [] }
    ensures len { deque_len notices.new ≡ deque_len notices.old + 1 }
    ensures capacity { deque_capacity notices.new ≡ deque_capacity notices.old }
{
    let told = match opened {
        Some((row, device)) => Notice::Interface {
            number,
            row,
            device,
        },
        None => Notice::Dropped { number },
    };
    notices.push_back_reserved(told);
}

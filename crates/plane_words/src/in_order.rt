ghost use Rattle.std.specs.Prelude.{◌≡◌, List, Bool, true, Contains};
ghost use Rattle.std.specs.declared.cmp.Ordering.{Ordering};
ghost use Rattle.std.specs.Cmp.{IsTotalOrder};
ghost use Rattle.plane_words.specs.InOrder.{ListsInOrder, TellsApart, ordered};

/// There is one list of a set in a total order that tells its values apart.
pub fn one_list_in_order<K>()
    ensures { (cmp : K → K → Ordering) (member : K → Bool) (xs ys : List K) →
        IsTotalOrder cmp → TellsApart cmp →
        ListsInOrder cmp member xs → ListsInOrder cmp member ys → xs ≡ ys }
{}

/// The items in order are the list of their set: strictly sorted, and the same members.
pub fn ordered_is_in_order<K>()
    ensures { (cmp : K → K → Ordering) (member : K → Bool) (items : List K) →
        IsTotalOrder cmp → TellsApart cmp →
        ((k : K) → Contains items k → member k ≡ true) →
        ((k : K) → member k ≡ true → Contains items k) →
        ListsInOrder cmp member (ordered cmp items) }
{}

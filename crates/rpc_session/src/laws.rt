ghost use Rattle.std.specs.Prelude.{◌≡◌, ℕ, List};
ghost use Rattle.plane_words.specs.InOrder.{ListsInOrder};
ghost use Rattle.blob_codec.specs.declared.blob.Attr.{Attr};
ghost use Rattle.rpc_session.specs.Arguments.{argument};
ghost use Rattle.rpc_session.specs.Values.{byte_order, has_name, in_order, names_of};

/// Values in order have the names of all, strictly sorted, and under each name the last value of
/// that name.
pub fn values_stand_in_order()
    ensures names { (attrs : List Attr) →
        ListsInOrder byte_order (has_name attrs) (names_of (in_order attrs)) }
    ensures lasts { (attrs : List Attr) (name : List ℕ) →
        argument name (in_order attrs) ≡ argument name attrs }
{}

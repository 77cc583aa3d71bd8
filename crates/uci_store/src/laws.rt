ghost use Rattle.std.specs.Prelude.{ℕ, List, ◌∷◌};
ghost use Rattle.uci_delta.specs.declared.delta.Delta.{Delta};
ghost use Rattle.uci_delta.specs.declared.delta_error.DeltaError.{DeltaError};
ghost use Rattle.uci_store.specs.declared.store.Store.{Store};
ghost use Rattle.uci_store.specs.Refusals.{DoesNotTake};
ghost use Rattle.uci_store.specs.Staging.{HasStaged};
ghost use Rattle.uci_store.specs.Batch.{IsOf, HasStagedBatch, DoesNotTakeBatch, HasSameFiles};

/// What is staged change by change is what the same changes come to that are staged at once; and
/// where one of them is refused behind the others, they are refused at once for the same cause.
pub fn staged_one_by_one()
    ensures staged { (old mid new : Store) (holder : ℕ) (name : List ℕ)
        (delta : Delta) (deltas : List Delta) → IsOf name delta → HasSameFiles old mid →
        HasStaged old mid holder delta → HasStagedBatch mid new holder name deltas →
        HasStagedBatch old new holder name (delta ∷ deltas) }
    ensures refused_first { (store : Store) (holder : ℕ) (name : List ℕ) (delta : Delta)
        (deltas : List Delta) (error : DeltaError) → IsOf name delta →
        DoesNotTake store holder delta error →
        DoesNotTakeBatch store holder name (delta ∷ deltas) error }
    ensures refused_later { (old mid : Store) (holder : ℕ) (name : List ℕ) (delta : Delta)
        (deltas : List Delta) (error : DeltaError) → IsOf name delta → HasSameFiles old mid →
        HasStaged old mid holder delta → DoesNotTakeBatch mid holder name deltas error →
        DoesNotTakeBatch old holder name (delta ∷ deltas) error }
{}

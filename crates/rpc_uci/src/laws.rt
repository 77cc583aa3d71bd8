//! A call has one answer, and leaves one state.
ghost use Rattle.std.specs.Prelude.{ℕ, ◌≡◌, List, Result};
ghost use Rattle.blob_codec.specs.declared.blob.Attr.{Attr};
ghost use Rattle.rpc_session.specs.SessionList.{SessionList};
ghost use Rattle.uci_store.specs.declared.store.Store.{Store};
ghost use Rattle.rpc_rules.specs.declared.rpc_error.RpcError.{RpcError as Error};
ghost use Rattle.rpc_uci.specs.declared.reply.Reply.{Reply as Told};
ghost use Rattle.uci_store.specs.Store.{IsStore};
ghost use Rattle.rpc_uci.specs.Done.{Answers, IsGiven, Rests};

/// A call has at most one answer, where no disk fails and there is memory. So each answer comes
/// exactly where its cause holds.
pub fn one_answer()
    ensures { (list : SessionList) (method : List ℕ) (args : List Attr) (now : ℕ)
        (store one other : Store)
        (result again : Result Told Error) → Answers list method args now store one result →
        Answers list method args now store other again → IsGiven result → IsGiven again →
        again ≡ result }
{}

/// And what it leaves of a store that was opened is one state: the files, what waits and all that
/// is staged.
pub fn one_state()
    ensures { (list : SessionList) (method : List ℕ) (args : List Attr) (now : ℕ)
        (store one other : Store)
        (result again : Result Told Error) → IsStore store
        → Answers list method args now store one result →
        Answers list method args now store other again → IsGiven result → IsGiven again →
        Rests one other }
{}

ghost use Rattle.std.specs.Prelude.{◌≡◌, ℕ, List};
ghost use Rattle.http_requests.specs.Asked.{Asked};
ghost use Rattle.http_requests.specs.Front.{Begins};
ghost use Rattle.http_requests.specs.declared.connection_end.ConnectionEnd.{ConnectionEnd};
ghost use Rattle.http_requests.specs.declared.front.Front.{Front};

/// One thing stands in front of bytes.
pub fn one_front()
    ensures { (bytes : List ℕ) (front other : Front) →
        Begins bytes front → Begins bytes other → front ≡ other }
{}

/// Something stands in front of all bytes.
pub fn some_front()
    ensures { (bytes : List ℕ) → ((front : Front) → Begins bytes front → ⊥) → ⊥ }
{}

/// The bytes of a connection have one list of bodies and one end.
pub fn one_end()
    ensures { (bytes : List ℕ) (bodies others : List (List ℕ)) (end another : ConnectionEnd) →
        Asked bytes bodies end → Asked bytes others another →
        (bodies ≡ others) × (end ≡ another) }
{}

/// All bytes have such a list and such an end.
pub fn some_end()
    ensures { (bytes : List ℕ) →
        ((bodies : List (List ℕ)) (end : ConnectionEnd) → Asked bytes bodies end → ⊥) → ⊥ }
{}

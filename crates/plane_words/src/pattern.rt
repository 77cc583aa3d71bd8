ghost use Rattle.std.specs.Prelude.{ℕ, ◌≡◌, ◌↔◌, ◌++◌, ◌∷◌, [], List, true, Contains};
ghost use Rattle.plane_words.specs.Pattern.{Fits, fits, fits_front, star, question_mark};

/// A pattern that ends with `*` fits the texts that begin with what stands before it; any other
/// fits itself alone.
pub fn front_patterns()
    ensures ends_with_star { (front text : List ℕ) →
        (fits_front (front ++ star ∷ []) text ≡ true)
        ↔ ((rest : List ℕ) × (text ≡ front ++ rest)) }
    ensures other { (pattern text : List ℕ) →
        ((front : List ℕ) → pattern ≡ front ++ star ∷ [] → ⊥) →
        (fits_front pattern text ≡ true) ↔ (text ≡ pattern) }
{}

/// The test that computes tells exactly which texts a pattern fits.
pub fn fits_is_a_test()
    ensures { (pattern text : List ℕ) → (fits pattern text ≡ true) ↔ Fits pattern text }
{}

/// A pattern without `*` and `?` fits itself alone.
pub fn plain_patterns()
    ensures { (pattern text : List ℕ) →
        (Contains pattern star → ⊥) → (Contains pattern question_mark → ⊥) →
        (fits pattern text ≡ true) ↔ (text ≡ pattern) }
{}

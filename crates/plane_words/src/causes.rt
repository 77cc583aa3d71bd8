ghost use Rattle.std.specs.Prelude.{ℕ, ◌+◌};
ghost use Rattle.plane_words.specs.Causes.{RoseBy, Rose, DidNotRise};

/// Rises add up.
pub fn rises_add_up()
    ensures { (m n before between now : ℕ) →
        RoseBy m before between → RoseBy n between now → RoseBy (m + n) before now }
{}

/// A count that did not rise over a time did not rise in its first part, nor in its second.
pub fn no_rise_in_a_part()
    ensures first { (before between now : ℕ) →
        DidNotRise before now → RoseBy 0 between now → DidNotRise before between }
    ensures second { (before between now : ℕ) →
        DidNotRise before now → RoseBy 0 before between → DidNotRise between now }
{}

/// A count that did not rise has not risen.
pub fn no_rise_is_no_rise()
    ensures { (before now : ℕ) → Rose before now → DidNotRise before now → ⊥ }
{}

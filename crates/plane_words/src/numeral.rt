ghost use Rattle.std.specs.Prelude.{ℕ, ◌<◌, ◌≤◌, ◌^◌, ◌∷◌, List, decimal, length};
ghost use Rattle.plane_words.specs.Numeral.{SpellsDecimal, SpellsHex, SpellsNumber, hex};
ghost use Rattle.plane_words.specs.Numeral.{zero_digit};

/// A number in decimal spells the number.
pub fn decimal_reads_back()
    ensures { (number : ℕ) → number < 2 ^ 64 → SpellsDecimal (decimal number) number }
{}

/// A number in hexadecimal of some width spells the number, and is at least so wide.
pub fn hex_reads_back()
    ensures spelled { (width number : ℕ) → number < 16 ^ 64 → SpellsHex (hex width number) number }
    ensures wide { (width number : ℕ) → width ≤ length (hex width number) }
{}

/// A zero in front changes no number.
pub fn zeros_in_front()
    ensures { (base number : ℕ) (text : List ℕ) →
        2 ≤ base → SpellsNumber base text number → SpellsNumber base (zero_digit ∷ text) number }
{}

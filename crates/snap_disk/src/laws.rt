ghost use Rattle.std.specs.Prelude.{◌≡◌, ◌<◌, ◌⊎◌, ◌↔◌, All, List, ℕ, Ok, Err};
ghost use Rattle.plane_disk.specs.Files.{Files};
ghost use Rattle.plane_disk.specs.Names.{AreDiskNames};
ghost use Rattle.snap_disk.specs.Body.{read_body};
ghost use Rattle.snap_disk.specs.BodyText.{body_text};
ghost use Rattle.snap_disk.specs.Grammar.{SpellsBody, IsFirstWrongPlace, IsVersion, CanBeKept};
ghost use Rattle.snap_disk.specs.Opened.{opened};
ghost use Rattle.snap_disk.specs.Unread.{GatesWrong, BodyWrong};
ghost use Rattle.snap_disk.specs.declared.kept.Kept.{Kept};

/// A body is read as what it spells, and as nothing else.
pub fn bodies_are_read()
    ensures { (names : List (List ℕ)) (text : List ℕ) (kept : Kept) → AreDiskNames names →
        (read_body names text ≡ Ok kept) ↔ SpellsBody names text kept }
{}

/// A body is refused exactly at its first wrong place.
pub fn bodies_are_refused()
    ensures { (names : List (List ℕ)) (text : List ℕ) (place : ℕ) → AreDiskNames names →
        (read_body names text ≡ Err place) ↔ IsFirstWrongPlace names text place }
{}

/// A body spells at most one thing.
pub fn one_body()
    ensures { (names : List (List ℕ)) (text : List ℕ) (kept other : Kept) →
        AreDiskNames names → SpellsBody names text kept → SpellsBody names text other →
        other ≡ kept }
{}

/// A body has at most one first wrong place.
pub fn one_wrong_place()
    ensures { (names : List (List ℕ)) (text : List ℕ) (place other : ℕ) →
        AreDiskNames names → IsFirstWrongPlace names text place →
        IsFirstWrongPlace names text other → other ≡ place }
{}

/// A body that spells something has no wrong place.
pub fn no_body_with_wrong_place()
    ensures { (names : List (List ℕ)) (text : List ℕ) (kept : Kept) (place : ℕ) →
        AreDiskNames names → SpellsBody names text kept → IsFirstWrongPlace names text place → ⊥ }
{}

/// A body spells something or has a first wrong place.
pub fn body_or_wrong_place()
    ensures { (names : List (List ℕ)) (text : List ℕ) → AreDiskNames names →
        ((kept : Kept) × SpellsBody names text kept)
        ⊎ ((place : ℕ) × IsFirstWrongPlace names text place) }
{}

/// What is written of a version spells what was to be kept.
pub fn written_bodies_spell()
    ensures { (names : List (List ℕ)) (version : ℕ) (kept : Kept) → IsVersion version →
        CanBeKept names kept → SpellsBody names (body_text names version kept) kept }
{}

/// Bytes spell nothing but what they are written of, in one of the versions.
pub fn bodies_are_written_so()
    ensures { (names : List (List ℕ)) (text : List ℕ) (kept : Kept) →
        All (λ byte. byte < 256) text → SpellsBody names text kept →
        (version : ℕ) × IsVersion version × (text ≡ body_text names version kept) }
{}

/// A disk has no reading exactly where its gates are not two bytes, or where the first is open and
/// the body spells nothing.
pub fn disks_without_reading()
    ensures { (names : List (List ℕ)) (image : Files) (now place : ℕ) → AreDiskNames names →
        (opened names image now ≡ Err place)
        ↔ (GatesWrong image place ⊎ BodyWrong names image place) }
{}

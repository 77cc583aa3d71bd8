ghost use Rattle.std.specs.Prelude.{◌≡◌, ℕ, List, Ok, Err};
ghost use Rattle.std.specs.List.{AllByRecursion};
ghost use Rattle.uci_text.specs.declared.byte_class.ByteClass.TheVariants.{PackageName};
ghost use Rattle.uci_text.specs.Table.{IsNameOf};
ghost use Rattle.uci_tree.specs.declared.package.Package.{Package};
ghost use Rattle.uci_tree.specs.Valid.{IsValid};
ghost use Rattle.uci_delta.specs.declared.delta.Delta.{Delta};
ghost use Rattle.uci_delta.specs.declared.delta_error.DeltaError.TheVariants as delta_error;
ghost use Rattle.uci_delta.specs.Applied.{applied};
ghost use Rattle.uci_delta.specs.Deltas.{AreDeltas};
ghost use Rattle.uci_delta.specs.Printed.{IsLine, lines_of};

/// A valid package stays valid where a delta is applied.
pub fn valid_stays_valid()
    ensures { (tree new : Package) (delta : Delta) → IsValid tree → applied tree delta ≡ Ok new →
        IsValid new }
{}

/// What deltas of a package are printed as, one a line, reads back as these deltas, where their
/// names are of their form and their values have no zero byte.
pub fn printed_deltas_read_back()
    ensures { (name : List ℕ) (deltas : List Delta) → AllByRecursion (IsLine name) deltas →
        AreDeltas name (lines_of deltas) deltas }
{}

/// Deltas that are read of a text are such deltas, so that what was read is written and read back
/// as it is.
pub fn read_deltas_are_lines()
    ensures { (name text : List ℕ) (deltas : List Delta) → AreDeltas name text deltas →
        AllByRecursion (IsLine name) deltas }
{}

/// And so is one that a valid package takes, where its own package has a name.
pub fn taken_deltas_are_lines()
    ensures { (tree new : Package) (delta : Delta) → IsValid tree →
        IsNameOf PackageName delta.package → applied tree delta ≡ Ok new →
        IsLine delta.package delta }
{}

/// A text has at most one list of deltas of a package.
pub fn one_list_of_deltas()
    ensures { (name text : List ℕ) (deltas others : List Delta) → AreDeltas name text deltas →
        AreDeltas name text others → others ≡ deltas }
{}

/// No delta is refused for want of memory.
pub fn no_refusal_is_memory()
    ensures { (tree : Package) (delta : Delta) → applied tree delta ≡ Err delta_error.Memory → ⊥ }
{}

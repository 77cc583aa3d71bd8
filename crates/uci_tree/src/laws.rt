ghost use Rattle.std.specs.Prelude.{◌≡◌, ◌⊎◌, Bool, false, List, ℕ, IsSome};
ghost use Rattle.uci_tree.specs.declared.package.Package.{Package};
ghost use Rattle.uci_tree.specs.declared.path.Path.{Path};
ghost use Rattle.uci_tree.specs.declared.tree_error.TreeError.{TreeError};
ghost use Rattle.uci_tree.specs.declared.tree_error.TreeError.TheVariants as tree_error;
ghost use Rattle.uci_tree.specs.Fault.{fault_of};
ghost use Rattle.uci_tree.specs.Path.{SpellsPath};
ghost use Rattle.uci_tree.specs.Reading.{Reads, HasTreeFault};
ghost use Rattle.uci_tree.specs.Valid.{IsValid};
ghost use Rattle.uci_tree.specs.Print.{printed};
ghost use Rattle.uci_tree.specs.Placed.{placed, IsClean};

/// A text is at most one package of a name.
pub fn one_package()
    ensures { (name text : List ℕ) (tree other : Package) → Reads name text tree →
        Reads name text other → other ≡ tree }
{}

/// A text has at most one fault.
pub fn one_tree_fault()
    ensures { (text : List ℕ) (error other : TreeError) → HasTreeFault text error →
        HasTreeFault text other → other ≡ error }
{}

/// A text that has a fault is no package.
pub fn no_package_with_fault()
    ensures { (name text : List ℕ) (error : TreeError) (tree : Package) → HasTreeFault text error →
        Reads name text tree → ⊥ }
{}

/// A text is a package or has a fault: so it is one exactly where it has no fault.
pub fn package_or_fault()
    ensures { (name text : List ℕ) →
        ((tree : Package) × Reads name text tree)
        ⊎ ((error : TreeError) × HasTreeFault text error) }
{}

/// A text is at most one path.
pub fn one_path()
    ensures { (text : List ℕ) (path other : Path) → SpellsPath text path → SpellsPath text other →
        other ≡ path }
{}

/// What is printed without the names of anonymous sections reads as the same sections, but that
/// each anonymous one has the name of its place; and as many were made as there are. The name in
/// the header is passed over.
pub fn printed_reads_back()
    ensures { (name : List ℕ) (tree : Package) (header : Bool) → IsValid tree → IsClean tree →
        Reads name (printed tree header false) (placed name tree) }
{}

/// What a printed text reads as is printed as the same text, so that writing a file that was read
/// anew changes no byte.
pub fn printed_again()
    ensures { (tree other : Package) (header : Bool) → IsValid tree → IsClean tree →
        Reads tree.name (printed tree header false) other →
        printed other header false ≡ printed tree header false }
{}

/// No fault of a text is want of memory: each has a line and a reason.
pub fn no_tree_fault_is_memory()
    ensures memory { (text : List ℕ) → HasTreeFault text tree_error.Memory → ⊥ }
    ensures reason { (text : List ℕ) (error : TreeError) →
        HasTreeFault text error → IsSome (fault_of error) }
{}

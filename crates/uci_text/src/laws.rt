ghost use Rattle.std.specs.Prelude.{◌≡◌, ◌⊎◌, ◌<◌, List, ℕ, length, All};
ghost use Rattle.uci_text.specs.declared.line.Line.{Line};
ghost use Rattle.uci_text.specs.declared.cmd.Cmd.{Cmd};
ghost use Rattle.uci_text.specs.declared.text_error.TextError.{TextError};
ghost use Rattle.uci_text.specs.Text.{Spells};
ghost use Rattle.uci_text.specs.FirstFault.{IsFirstFault};
ghost use Rattle.uci_text.specs.Commands.{SpellsCommands, IsFirstCommandFault};
ghost use Rattle.uci_text.specs.declared.text_error.TextError.TheVariants as text_error;

/// A text has at most one reading.
pub fn one_reading()
    ensures { (text : List ℕ) (lines others : List Line) → Spells text lines → Spells text others →
        others ≡ lines }
{}

/// A text has at most one first fault.
pub fn one_fault()
    ensures { (text : List ℕ) (error other : TextError) → IsFirstFault text error →
        IsFirstFault text other → other ≡ error }
{}

/// A text that has a fault has no reading.
pub fn no_reading_with_fault()
    ensures { (text : List ℕ) (error : TextError) (lines : List Line) → IsFirstFault text error →
        Spells text lines → ⊥ }
{}

/// A text has a reading or a first fault: so it has a reading exactly where it has no fault.
pub fn reading_or_fault()
    ensures { (text : List ℕ) →
        ((lines : List Line) × Spells text lines)
        ⊎ ((error : TextError) × IsFirstFault text error) }
{}

/// Each line of a reading has a word.
pub fn lines_have_words()
    ensures { (text : List ℕ) (lines : List Line) → Spells text lines →
        All (λ line. 0 < length line.words) lines }
{}

/// A text has at most one list of commands.
pub fn one_list_of_commands()
    ensures { (text : List ℕ) (commands others : List Cmd) → SpellsCommands text commands →
        SpellsCommands text others → others ≡ commands }
{}

/// A text has at most one first fault of all.
pub fn one_command_fault()
    ensures { (text : List ℕ) (error other : TextError) → IsFirstCommandFault text error →
        IsFirstCommandFault text other → other ≡ error }
{}

/// A text that has a fault has no commands.
pub fn no_commands_with_fault()
    ensures { (text : List ℕ) (error : TextError) (commands : List Cmd) →
        IsFirstCommandFault text error → SpellsCommands text commands → ⊥ }
{}

/// A text has commands or a first fault: so it has commands exactly where it has no fault.
pub fn commands_or_fault()
    ensures { (text : List ℕ) →
        ((commands : List Cmd) × SpellsCommands text commands)
        ⊎ ((error : TextError) × IsFirstCommandFault text error) }
{}

/// No fault of a text is want of memory.
pub fn no_fault_is_memory()
    ensures lines { (text : List ℕ) → IsFirstFault text text_error.Memory → ⊥ }
    ensures commands { (text : List ℕ) → IsFirstCommandFault text text_error.Memory → ⊥ }
{}

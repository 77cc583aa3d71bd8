ghost use Rattle.std.specs.Prelude.{◌≡◌, ◌≢◌, ◌<◌, ◌-◌, ◌^◌, length, Ok, Err, IfOk, IfErr};
ghost use Rattle.uci_tree.specs.declared.package.Package.{Package};
ghost use Rattle.uci_tree.specs.declared.tree_error.TreeError.{TreeError};
ghost use Rattle.uci_tree.specs.Fold as fold;
ghost use Rattle.uci_tree.specs.Index.{IsLack, draft_of};
ghost use Rattle.uci_tree.specs.Reading.{Reads, HasTreeFault};
ghost use Rattle.uci_tree.specs.Valid.{IsValid};
ghost use Rattle.uci_text.specs.Table.{IsNameOf};
ghost use Rattle.uci_text.specs.declared.byte_class.ByteClass.{ByteClass};

use crate::sections::Sections;
use crate::{Package, TreeError};
use plane_io::{Items, Text};
use std::alloc::Global;
use uci_text::{Cmd, read_commands};

/// Reads a text as the package of this name.
///
/// A `config` with the name of a section goes on with the first one of that name and gives it its
/// type; else it begins a section at the end, whose name is that of [`crate::anonymous_name`] where
/// it has none. An `option` replaces the option of its name at its place, or comes behind the
/// others, and with an empty value removes it. A `list` appends to a list, makes an option the
/// first item of a list, or begins one. Both belong to the section that the latest `config` named.
/// The name on a `package` line is passed over.
///
/// # Errors
///
/// The fault of the text as in [`uci_text::read_commands`]. Where it has none, `NoSection` with the
/// line of the first `option` or `list` before any `config`. `Memory` where there was not enough
/// memory.
pub fn read_package(alloc: Global, name: &[u8], text: &[u8]) -> Result<Package, TreeError>
    requires { length text.now < 2 ^ 32 - 1 }
    ensures found { IfOk result (λ tree. Reads name.now text.now tree) }
    ensures only { IfOk result (λ tree.
        (other : Package) → Reads name.now text.now other → other ≡ tree) }
    ensures refused { (error : TreeError) → result ≡ Err error → error ≢ TreeError.Memory →
        HasTreeFault text.now error }
    ensures valid { IsNameOf ByteClass.PackageName name.now → IfOk result IsValid }
{
    let commands = read_commands(alloc, text)?;
    let drafts = sections_of(alloc, commands.into_vec())?;
    let name = Text::from_bytes(alloc, name)?;
    let sections = drafts.finish(alloc)?;
    Ok(Package {
        name,
        made: sections.len() as u64,
        sections: Items::from_vec(sections),
    })
}

/// What the commands make, one after another.
fn sections_of(alloc: Global, commands: Vec<Cmd>) -> Result<Sections, TreeError>
    ensures made { IfOk result (λ sections.
        fold.after_all fold.nothing commands.items ≡ Ok (draft_of sections)) }
    ensures refused { IfErr result (IsLack (fold.after_all fold.nothing commands.items)) }
{
    let mut sections = Sections::new(alloc);
    for command in commands {
        sections.take(alloc, command)?;
    }
    Ok(sections)
}

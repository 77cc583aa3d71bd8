ghost use Rattle.std.specs.Prelude.{◌≡◌, IfOk};
ghost use Rattle.uci_cli.specs.Command as spec;

use crate::{Keyword, Verb};
use plane_io::{Memory, Text};

/// What `uci` is asked for. Paths and packages are the words as they were given.
#[derive(Drop)]
pub enum Command {
    /// Lists a package, a section or an option, or all packages.
    Show { path: Option<Text> },
    /// Gives the value of an option, or the type of a section.
    Get { path: Text },
    /// Stages a change of a section or an option.
    Stage { verb: Verb, word: Text },
    /// Stages a new section of a type.
    Add { name: Text, kind: Text },
    /// Lists what is staged.
    Changes { name: Option<Text> },
    /// Drops what is staged of a package, a section or an option.
    Revert { path: Text },
    /// Writes what is staged.
    Commit { name: Option<Text> },
    /// Prints a package, or all.
    Export { name: Option<Text> },
    /// Reads a package from the input.
    Import { name: Text },
    /// Carries out each line of the input.
    Batch,
}

impl Command {
    /// Whether the command reads the input.
    pub fn reads_input(&self) -> bool
        ensures { result ≡ spec.reads_input self.now }
    {
        matches!(self, Command::Import { .. } | Command::Batch)
    }
}

/// The command that the words ask for, which are those behind the options.
///
/// # Errors
///
/// Want of memory.
pub fn read_command(words: &[Text]) -> Result<Option<Command>, Memory>
    ensures { IfOk result (λ found. found ≡ spec.command_of words.now) }
{
    let Some((first, rest)) = words.split_first() else {
        return Ok(None);
    };
    match Keyword::of(first.as_bytes()) {
        Some(keyword) => command_behind(keyword, rest),
        None => Ok(None),
    }
}

fn command_behind(keyword: Keyword, rest: &[Text]) -> Result<Option<Command>, Memory>
    ensures { IfOk result (λ found. found ≡ spec.command_behind keyword rest.now) }
{
    match keyword {
        Keyword::Show => show_command(rest),
        Keyword::Get => get_command(rest),
        Keyword::Stage(verb) => stage_command(verb, rest),
        Keyword::Add => add_command(rest),
        Keyword::Changes => changes_command(rest),
        Keyword::Revert => revert_command(rest),
        Keyword::Commit => commit_command(rest),
        Keyword::Export => export_command(rest),
        Keyword::Import => import_command(rest),
        Keyword::Batch => Ok(batch_command(rest)),
    }
}

fn show_command(rest: &[Text]) -> Result<Option<Command>, Memory>
    ensures { IfOk result (λ found. found ≡ spec.show_command rest.now) }
{
    match rest {
        [] => Ok(Some(Command::Show { path: None })),
        [path] => Ok(Some(Command::Show {
            path: Some(path.copy()?),
        })),
        _ => Ok(None),
    }
}

fn get_command(rest: &[Text]) -> Result<Option<Command>, Memory>
    ensures { IfOk result (λ found. found ≡ spec.get_command rest.now) }
{
    let [path] = rest else {
        return Ok(None);
    };
    Ok(Some(Command::Get { path: path.copy()? }))
}

fn stage_command(verb: Verb, rest: &[Text]) -> Result<Option<Command>, Memory>
    ensures { IfOk result (λ found. found ≡ spec.stage_command verb rest.now) }
{
    let [word] = rest else {
        return Ok(None);
    };
    Ok(Some(Command::Stage {
        verb,
        word: word.copy()?,
    }))
}

fn add_command(rest: &[Text]) -> Result<Option<Command>, Memory>
    ensures { IfOk result (λ found. found ≡ spec.add_command rest.now) }
{
    let [name, kind] = rest else {
        return Ok(None);
    };
    Ok(Some(Command::Add {
        name: name.copy()?,
        kind: kind.copy()?,
    }))
}

fn changes_command(rest: &[Text]) -> Result<Option<Command>, Memory>
    ensures { IfOk result (λ found. found ≡ spec.changes_command rest.now) }
{
    match rest {
        [] => Ok(Some(Command::Changes { name: None })),
        [name] => Ok(Some(Command::Changes {
            name: Some(name.copy()?),
        })),
        _ => Ok(None),
    }
}

fn revert_command(rest: &[Text]) -> Result<Option<Command>, Memory>
    ensures { IfOk result (λ found. found ≡ spec.revert_command rest.now) }
{
    let [path] = rest else {
        return Ok(None);
    };
    Ok(Some(Command::Revert { path: path.copy()? }))
}

fn commit_command(rest: &[Text]) -> Result<Option<Command>, Memory>
    ensures { IfOk result (λ found. found ≡ spec.commit_command rest.now) }
{
    match rest {
        [] => Ok(Some(Command::Commit { name: None })),
        [name] => Ok(Some(Command::Commit {
            name: Some(name.copy()?),
        })),
        _ => Ok(None),
    }
}

fn export_command(rest: &[Text]) -> Result<Option<Command>, Memory>
    ensures { IfOk result (λ found. found ≡ spec.export_command rest.now) }
{
    match rest {
        [] => Ok(Some(Command::Export { name: None })),
        [name] => Ok(Some(Command::Export {
            name: Some(name.copy()?),
        })),
        _ => Ok(None),
    }
}

fn import_command(rest: &[Text]) -> Result<Option<Command>, Memory>
    ensures { IfOk result (λ found. found ≡ spec.import_command rest.now) }
{
    let [name] = rest else {
        return Ok(None);
    };
    Ok(Some(Command::Import { name: name.copy()? }))
}

fn batch_command(rest: &[Text]) -> Option<Command>
    ensures { result ≡ spec.batch_command rest.now }
{
    match rest {
        [] => Some(Command::Batch),
        _ => None,
    }
}

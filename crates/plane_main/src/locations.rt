ghost use Rattle.std.specs.Prelude.{◌≡◌, map, string_bytes, IfOk, IfSome, IfNone};
ghost use Rattle.plane_main.specs.Locations as spec;
ghost use Rattle.plane_main.specs.Locations.{IsPlaced};
ghost use Rattle.plane_main.specs.Command.{IsInTable};

use crate::command::{Command, read_command};
use crate::run_words::RunAsked;
use plane_io::{Memory, Text};
use std::alloc::Global;
use ubus_acl::{Acl, AclError};
use uci_cli::{Asked, Options, read_words};

/// Where the real devices of a command are. `start` reads the standard input and has no places, and
/// `gen` and the pages about the program have none, nor has a run whose access list does not read.
#[derive(Drop)]
pub struct Locations {
    /// The folder of the packages, empty where the command has none.
    pub files: Text,
    /// The folder of staged changes, empty where the command has none.
    pub staged: Text,
    /// The socket of a server.
    pub socket: Option<Text>,
    /// The file of the input, where the command reads one and it is not the standard input.
    pub input: Option<Text>,
    /// The user and the group of clients.
    pub user: Text,
    pub group: Text,
}

/// Where the devices of the command are, or `None` where the words are not in the table of
/// commands.
///
/// # Errors
///
/// Want of memory.
pub fn places(alloc: Global, words: &[String]) -> Result<Option<Locations>, Memory>
    ensures found { IfOk result (λ found.
        IfSome found (IsPlaced (map string_bytes words.now))) }
    ensures none { IfOk result (λ found.
        IfNone found (IsInTable (map string_bytes words.now) → ⊥)) }
{
    let Some(command) = read_command(alloc, words)? else {
        return Ok(None);
    };
    let nowhere = nowhere(alloc)?;
    match command {
        Command::Uci { words } => folders(alloc, words.as_slice(), nowhere),
        Command::Run { asked } => Ok(Some(folders_of(alloc, asked, nowhere)?)),
        Command::Start { .. } | Command::Gen { .. } | Command::Show(_) => Ok(Some(nowhere)),
    }
}

// No folders, no socket and no input, under the user and the group `root`.
fn nowhere(alloc: Global) -> Result<Locations, Memory>
    ensures { IfOk result (λ locations. locations ≡ spec.nowhere) }
{
    Ok(Locations {
        files: Text::from_vec(Vec::new(alloc)),
        staged: Text::from_vec(Vec::new(alloc)),
        socket: None,
        input: None,
        user: Text::from_bytes(alloc, b"root")?,
        group: Text::from_bytes(alloc, b"root")?,
    })
}

// Those of `run`, which opens none where its access list does not read.
fn folders_of(alloc: Global, asked: RunAsked, nowhere: Locations) -> Result<Locations, Memory>
    ensures { IfOk result (λ locations. locations ≡ spec.folders_of_run asked nowhere) }
{
    match Acl::read(alloc, asked.acl.as_bytes()) {
        Ok(_) => Ok(Locations {
            files: asked.files,
            staged: asked.staged,
            ..nowhere
        }),
        Err(AclError::Memory) => Err(Memory),
        Err(_) => Ok(nowhere),
    }
}

// Those of `uci`, where its words ask for a command.
fn folders(alloc: Global, words: &[Text], nowhere: Locations) -> Result<Option<Locations>, Memory>
    ensures { IfOk result (λ found. found ≡ spec.folders words.now nowhere) }
{
    let Asked { options, command } = read_words(alloc, words)?;
    let Some(command) = command else {
        return Ok(None);
    };
    Ok(Some(named_by(options, &command, nowhere)))
}

// The folders that the options name, and the file of the input, where the command reads one.
fn named_by(options: Options, command: &uci_cli::Command, nowhere: Locations) -> Locations
    ensures { result ≡ spec.named_by options command.now nowhere }
{
    let reads = command.reads_input();
    let Options {
        files,
        staged,
        input,
        ..
    } = options;
    Locations {
        files,
        staged,
        input: if reads { input } else { None },
        ..nowhere
    }
}

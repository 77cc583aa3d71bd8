//! The words of `run`.
ghost use Rattle.std.specs.Prelude.{◌≡◌, map, string_bytes, IfOk};
ghost use Rattle.plane_main.specs.RunWords as spec;

use plane_io::{Memory, Text};
use script_lines::read_long_decimal;
use std::alloc::Global;

/// The folder of staged changes where no other is named.
pub const STAGED_FOLDER: &[u8] = b"/tmp/.uci";

/// The access list where no other is given: it has no record.
pub const EMPTY_ACL: &[u8] = b"[]";

/// What `run` is asked for.
#[derive(Drop)]
pub struct RunAsked {
    /// The folder of the packages.
    pub files: Text,
    /// The folder of staged changes.
    pub staged: Text,
    /// The access list of the message bus, as JSON.
    pub acl: Text,
    /// The moment at which the folders are opened, in seconds.
    pub moment: u64,
}

/// The options of `run` that were given so far.
#[derive(Drop)]
struct RunOptions {
    files: Option<Text>,
    staged: Option<Text>,
    acl: Option<Text>,
    moment: Option<u64>,
}

/// What the words ask `run` for, or `None` where they are none of its own.
pub(crate) fn read_run(alloc: Global, words: &[String]) -> Result<Option<RunAsked>, Memory>
    ensures { IfOk result (λ found. found ≡ spec.run_of (map string_bytes words.now)) }
{
    let Some((command, rest)) = words.split_first() else {
        return Ok(None);
    };
    if command.as_bytes() != b"run".as_slice() {
        return Ok(None);
    }
    let Some(options) = read_options(alloc, rest)? else {
        return Ok(None);
    };
    asked_by(alloc, options)
}

fn read_options(alloc: Global, words: &[String]) -> Result<Option<RunOptions>, Memory>
    ensures { IfOk result (λ found.
        found ≡ spec.options_of spec.no_options (map string_bytes words.now)) }
{
    let mut given = RunOptions {
        files: None,
        staged: None,
        acl: None,
        moment: None,
    };
    let mut rest = words;
    while let Some((word, behind)) = rest.split_first() {
        let Some((value, behind)) = behind.split_first() else {
            return Ok(None);
        };
        let Some(next) = with_option(alloc, given, word.as_bytes(), value.as_bytes())? else {
            return Ok(None);
        };
        given = next;
        rest = behind;
    }
    Ok(Some(given))
}

// The options with one more, which was not given before.
fn with_option(
    alloc: Global,
    given: RunOptions,
    word: &[u8],
    value: &[u8],
) -> Result<Option<RunOptions>, Memory>
    ensures { IfOk result (λ found. found ≡ spec.with_option given word.now value.now) }
{
    if word == b"-c".as_slice() {
        if given.files.is_some() {
            return Ok(None);
        }
        let files = Some(Text::from_bytes(alloc, value)?);
        return Ok(Some(RunOptions { files, ..given }));
    }
    if word == b"-t".as_slice() {
        if given.staged.is_some() {
            return Ok(None);
        }
        let staged = Some(Text::from_bytes(alloc, value)?);
        return Ok(Some(RunOptions { staged, ..given }));
    }
    if word == b"-a".as_slice() {
        if given.acl.is_some() {
            return Ok(None);
        }
        let acl = Some(Text::from_bytes(alloc, value)?);
        return Ok(Some(RunOptions { acl, ..given }));
    }
    if word != b"-w".as_slice() || given.moment.is_some() {
        return Ok(None);
    }
    let Some(moment) = read_long_decimal(value) else {
        return Ok(None);
    };
    Ok(Some(RunOptions {
        moment: Some(moment),
        ..given
    }))
}

// The folder of packages has to be named.
fn asked_by(alloc: Global, options: RunOptions) -> Result<Option<RunAsked>, Memory>
    ensures { IfOk result (λ found. found ≡ spec.asked_by options) }
{
    let RunOptions {
        files,
        staged,
        acl,
        moment,
    } = options;
    let Some(files) = files else {
        return Ok(None);
    };
    let staged = match staged {
        Some(staged) => staged,
        None => Text::from_bytes(alloc, STAGED_FOLDER)?,
    };
    let acl = match acl {
        Some(acl) => acl,
        None => Text::from_bytes(alloc, EMPTY_ACL)?,
    };
    Ok(Some(RunAsked {
        files,
        staged,
        acl,
        moment: moment.unwrap_or(0),
    }))
}

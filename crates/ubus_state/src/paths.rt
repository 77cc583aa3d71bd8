//! Objects by path.
ghost use Rattle.std.specs.Prelude.{◌≡◌, OnOk, OnErr, Some, None};
ghost use Rattle.ubus_state.specs.Paths.{IsNoted};

use plane_io::{Memory, Text};
use std::collections::BTreeMap;

/// Notes the number at the path, where there is one. Where there is not enough memory, all stays.
pub(crate) fn note_path(
    paths: &mut BTreeMap<Text, u32>,
    path: &Option<Text>,
    number: u32,
) -> Result<(), Memory>
    ensures ok { OnOk result (IsNoted paths.old paths.new path.now (Some number)) }
    ensures err { OnErr result (paths.new.entries ≡ paths.old.entries) }
{
    let Some(path) = path else {
        return Ok(());
    };
    let key = path.copy()?;
    paths.insert(key, number)?;
    Ok(())
}

/// Forgets the number at the path, where there is one.
pub(crate) fn forget_path(paths: &mut BTreeMap<Text, u32>, path: &Option<Text>)
    ensures { IsNoted paths.old paths.new path.now None }
{
    if let Some(path) = path {
        paths.remove(path);
    }
}

ghost use Rattle.std.specs.Prelude.{◌≡◌, IfOk};

use plane_io::{Memory, Text};
use uci_delta::{Change, Delta};

/// The same delta, in memory of its own.
pub fn copy_delta(delta: &Delta) -> Result<Delta, Memory>
    ensures { IfOk result (λ copy. copy ≡ delta.now) }
{
    let package = delta.package.copy()?;
    let section = delta.section.copy()?;
    let option = copy_option(&delta.option)?;
    let change = copy_change(&delta.change)?;
    Ok(Delta {
        package,
        section,
        option,
        change,
    })
}

fn copy_option(option: &Option<Text>) -> Result<Option<Text>, Memory>
    ensures { IfOk result (λ copy. copy ≡ option.now) }
{
    match option {
        None => Ok(None),
        Some(name) => Ok(Some(name.copy()?)),
    }
}

fn copy_change(change: &Change) -> Result<Change, Memory>
    ensures { IfOk result (λ copy. copy ≡ change.now) }
{
    match change {
        Change::Set(value) => Ok(Change::Set(value.copy()?)),
        Change::Remove => Ok(Change::Remove),
        Change::Add(kind) => Ok(Change::Add(kind.copy()?)),
        Change::Rename(name) => Ok(Change::Rename(name.copy()?)),
        Change::Reorder(place) => Ok(Change::Reorder(place.copy()?)),
        Change::ListAdd(item) => Ok(Change::ListAdd(item.copy()?)),
        Change::ListDel(item) => Ok(Change::ListDel(item.copy()?)),
    }
}

//! Staged changes.
use crate::show::{put_error, put_line};
use plane_io::Text;
use std::alloc::Global;
use uci_delta::{
    Change, Delta, DeltaError, apply, apply_all, print_change, print_delta, read_deltas,
};
use uci_tree::Package;

/// The changes of a package in a delta file, which are printed as such a file.
pub(crate) fn read_changes(
    alloc: Global,
    package: &str,
    text: &[u8],
    out: &mut Vec<u8>,
) -> anyhow::Result<Vec<Delta>> {
    let deltas = read_deltas(alloc, package.as_bytes(), text)?.into_vec();
    for delta in &deltas {
        if !delta.has_shape() {
            return Err(anyhow::anyhow!("a change of no shape"));
        }
        print_delta(out, delta)?;
        out.push(b'\n')?;
    }
    Ok(deltas)
}

/// The changes as `uci changes` shows them.
pub(crate) fn show_changes(deltas: &[Delta], out: &mut Vec<u8>) -> anyhow::Result<()> {
    for delta in deltas {
        if !delta.has_shape() {
            return Err(anyhow::anyhow!("a change of no shape"));
        }
        print_change(out, delta)?;
        out.push(b'\n')?;
    }
    Ok(())
}

/// Applies the changes one after another, and tells of each how that went.
pub(crate) fn apply_each(
    alloc: Global,
    package: &mut Package,
    deltas: &[Delta],
    out: &mut Vec<u8>,
) -> anyhow::Result<()> {
    for delta in deltas {
        let answer = apply(alloc, package, delta);
        tell(alloc, answer, out)?;
    }
    Ok(())
}

/// Applies the changes in one call.
pub(crate) fn apply_all_of(
    alloc: Global,
    package: &mut Package,
    deltas: &[Delta],
) -> anyhow::Result<()> {
    apply_all(alloc, package, deltas)?;
    Ok(())
}

/// Applies one change of a section, or of an option in it.
pub(crate) fn apply_one(
    alloc: Global,
    package: &mut Package,
    kind: &str,
    section: &str,
    option: Option<&str>,
    value: &[u8],
    out: &mut Vec<u8>,
) -> anyhow::Result<()> {
    let option = match option {
        None => None,
        Some(option) => Some(Text::from_bytes(alloc, option.as_bytes())?),
    };
    let delta = Delta {
        package: package.name.copy()?,
        section: Text::from_bytes(alloc, section.as_bytes())?,
        option,
        change: change_of(alloc, kind, value)?,
    };
    let answer = apply(alloc, package, &delta);
    tell(alloc, answer, out)
}

fn change_of(alloc: Global, kind: &str, value: &[u8]) -> anyhow::Result<Change> {
    let value = Text::from_bytes(alloc, value)?;
    match kind {
        "set" => Ok(Change::Set(value)),
        "remove" => Ok(Change::Remove),
        "add" => Ok(Change::Add(value)),
        "rename" => Ok(Change::Rename(value)),
        "reorder" => Ok(Change::Reorder(value)),
        "list-add" => Ok(Change::ListAdd(value)),
        "list-del" => Ok(Change::ListDel(value)),
        _ => Err(anyhow::anyhow!("no such kind of change")),
    }
}

fn tell(alloc: Global, answer: Result<(), DeltaError>, out: &mut Vec<u8>) -> anyhow::Result<()> {
    match answer {
        Ok(()) => put_line(out, b"ok"),
        Err(error) => {
            let text = error.to_string(alloc)?;
            put_error(alloc, out, error.number(), text.as_str())
        }
    }
}

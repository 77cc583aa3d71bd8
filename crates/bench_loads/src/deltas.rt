//! `deltas TIMES`: reads a package from the standard input, makes a delta for each of its sections,
//! applies them all to it so many times, and gives how many sections it has then.
ghost use Rattle.std.specs.Prelude.{◌<◌, ◌-◌, ◌^◌, length};

use plane_io::{Items, Memory, Text, read_to_end};
use plane_real::StdSource;
use std::alloc::Global;
use uci_delta::{Change, Delta, apply_all};
use uci_tree::{Package, TreeError, read_package};

/// How many bytes a text may have.
const LIMIT: u64 = 1 << 30;

/// A change of an option or of a section, by turns, that may come again and again.
fn change_at(alloc: Global, place: usize) -> Result<(Option<Text>, Change), Memory> {
    let option = Text::from_bytes(alloc, b"mtu")?;
    Ok(match place % 3 {
        0 => (Some(option), Change::Set(Text::from_bytes(alloc, b"1500")?)),
        1 => (
            Some(option),
            Change::ListDel(Text::from_bytes(alloc, b"0")?),
        ),
        _ => (None, Change::Set(Text::from_bytes(alloc, b"interface")?)),
    })
}

/// A delta for each section.
fn deltas_of(alloc: Global, tree: &Package) -> Result<Items<Delta>, Memory> {
    let mut deltas = Items::new(alloc);
    for (place, section) in tree.sections.as_slice().iter().enumerate() {
        let (option, change) = change_at(alloc, place)?;
        deltas.push(Delta {
            package: tree.name.copy()?,
            section: section.name.copy()?,
            option,
            change,
        })?;
    }
    Ok(deltas)
}

/// How many sections the package has behind all that.
fn apply_often(alloc: Global, text: &[u8], times: u32) -> Result<usize, TreeError>
    requires { length text.now < 2 ^ 32 - 1 }
{
    let mut tree = read_package(alloc, b"network", text)?;
    let deltas = deltas_of(alloc, &tree)?;
    for _ in 0..times {
        apply_all(alloc, &mut tree, deltas.as_slice())?;
    }
    Ok(tree.sections.as_slice().len())
}

/// Carries these words out.
pub(crate) fn run(rt: &HostRuntime, words: &[&str]) -> anyhow::Result<Option<String>> {
    let alloc = rt.alloc();
    let [times] = words else {
        return Ok(None);
    };
    let text = read_to_end(alloc, &mut StdSource::new(rt.stdin()), LIMIT)?;
    let count = apply_often(alloc, text.as_slice(), times.parse()?)?;
    Ok(Some(format!(in alloc; "{count}")?))
}

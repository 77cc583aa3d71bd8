ghost use Rattle.std.specs.Prelude.{IfOk};
ghost use Rattle.graph_rules.specs.Conditions.{IsId};

use crate::event::name_of;
use dev_graph::Graph;
use graph_rules::DevId;
use net_plane::{Net, NetError};
use plane_io::Text;
use serde_json::Value;
use std::alloc::Global;
use std::fmt::Write;

fn id_of(graph: &Graph, word: &str) -> anyhow::Result<DevId>
    ensures { IfOk result (λ id. IsId graph.now id.0) }
{
    match graph.find(&name_of(word)?) {
        Some(id) => Ok(id),
        None => Err(anyhow::anyhow!("the name is not in the graph")),
    }
}

fn show_name(graph: &Graph, word: &str, told: &mut String) -> anyhow::Result<()> {
    let id = id_of(graph, word)?;
    if graph.available(id) {
        write!(told, "available, ")?;
    }
    if graph.link(id) {
        write!(told, "link, ")?;
    }
    writeln!(told, "users {}", graph.users(id))?;
    Ok(())
}

fn status(
    alloc: Global,
    net: &Net,
    kind: &str,
    name: &str,
) -> anyhow::Result<Result<Value, NetError>> {
    let row = Text::from_bytes(alloc, name.as_bytes())?;
    Ok(match kind {
        "interface" => net.interface_status(alloc, &row),
        "device" => net.device_status(alloc, &name_of(name)?),
        "radio" => net.radio_status(alloc, &row),
        _ => return Err(anyhow::anyhow!("neither an interface nor a device nor a radio")),
    })
}

fn show_status(
    alloc: Global,
    net: &Net,
    kind: &str,
    name: &str,
    told: &mut String,
) -> anyhow::Result<()> {
    match status(alloc, net, kind, name)? {
        Ok(shown) => writeln!(told, "{}", String::from_utf8(shown.to_vec(alloc)?)?)?,
        Err(NetError::Memory) => return Err(NetError::Memory.into()),
        Err(error) => writeln!(told, "error {} {error}", error.number())?,
    }
    Ok(())
}

/// Tells what is asked for of the plane, which stays as it was.
pub(crate) fn show(
    alloc: Global,
    net: &Net,
    words: &[&str],
    out: &mut Vec<u8>,
) -> anyhow::Result<()> {
    let mut told = String::new(alloc);
    match words {
        ["show", kind, name] => show_status(alloc, net, kind, name, &mut told)?,
        ["graph", names @ ..] => {
            let graph = net.graph();
            for name in names {
                show_name(graph, name, &mut told)?;
            }
        }
        ["due"] => writeln!(told, "due {}", net.due())?,
        _ => return Err(anyhow::anyhow!("no such question")),
    }
    out.extend_from_slice(told.as_bytes())?;
    Ok(())
}

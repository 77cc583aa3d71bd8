ghost use Rattle.std.specs.Prelude.{◌≡◌, map, IfOk};
ghost use Rattle.graph_rules.specs.Answers.{port_of};
ghost use Rattle.net_view.specs.RadioPorts.{as_joined};

use graph_rules::RadioPort;
use net_view::{PortJoin, RadioPorts};
use plane_io::Memory;
use std::alloc::Global;

/// The ports that radios give to bridges, as a graph of devices takes them.
///
/// # Errors
///
/// `Memory` where there is not enough of it.
pub fn graph_ports(alloc: Global, ports: &RadioPorts) -> Result<Vec<RadioPort>, Memory>
    ensures { IfOk result (λ list. map port_of list.items
        ≡ map as_joined ports.now.joined.items) }
{
    port_list(alloc, ports.joined.as_slice())
}

fn port_list(alloc: Global, joined: &[PortJoin]) -> Result<Vec<RadioPort>, Memory>
    ensures { IfOk result (λ list. map port_of list.items ≡ map as_joined joined.now) }
{
    let mut list = Vec::new(alloc);
    for join in joined {
        list.push(graph_port(join))?;
    }
    Ok(list)
}

fn graph_port(join: &PortJoin) -> RadioPort
    ensures { port_of result ≡ as_joined join.now }
{
    RadioPort {
        bridge: join.bridge,
        port: join.port,
    }
}

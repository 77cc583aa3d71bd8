ghost use Rattle.std.specs.Prelude.{◌≡◌, IfOk};
ghost use Rattle.net_conf.specs.Limits as limits;
ghost use Rattle.net_start.specs.Inputs as spec;

use net_conf::read_conf;
use net_rows::ConfError;
use plane_io::{Items, Memory, Text};
use std::alloc::Global;
use uci_tree::Package;

/// A `wireless` package that says nothing.
pub(crate) fn no_wireless(alloc: Global) -> Package
    ensures { result ≡ spec.no_wireless }
{
    Package {
        name: Text::from_vec(Vec::new(alloc)),
        sections: Items::new(alloc),
        made: 0,
    }
}

/// The limit that a list of the rows of a `network` package passes, if one does.
///
/// # Errors
///
/// Want of memory.
pub fn passed_limit(alloc: Global, network: &Package) -> Result<Option<u64>, Memory>
    ensures { IfOk result (λ limit. limit ≡ limits.passed_limit (spec.rows_of network.now)) }
{
    match read_conf(alloc, network, &no_wireless(alloc)) {
        Ok(_) => Ok(None),
        Err(ConfError::Limit { number }) => Ok(Some(number)),
        Err(ConfError::Memory) => Err(Memory),
    }
}

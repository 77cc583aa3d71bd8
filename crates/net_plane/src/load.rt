ghost use Rattle.std.specs.Prelude.{◌≡◌, ◌⊎◌, ◌+◌, ℕ, [], Some, None, Err, OnOk, OnErr};
ghost use Rattle.net_rules.specs.declared.event.Event.TheVariants as event_of;
ghost use Rattle.net_conf.specs.Conf.{conf};
ghost use Rattle.net_conf.specs.Limits.{passed_limit};
ghost use Rattle.net_plane.specs.Network.{HasSameKernel};
ghost use Rattle.net_plane.specs.Read.{AreRead};
ghost use Rattle.net_plane.specs.Taken.{IsAfter, Answers};
ghost use Rattle.net_plane.specs.NetError as spec;
ghost use Rattle.net_plane.specs.declared.net_error.NetError.{NetError};
ghost use Rattle.net_plane.specs.declared.net_error.NetError.TheVariants as error;

use crate::net::Net;
use crate::net_error::NetError;
use net_conf::read_conf;
use net_rebuild::{Rebuild, load};
use net_rows::{Conf, ConfError};
use net_rules::Event;
use std::alloc::Global;
use uci_tree::Package;

/// Loads are counted below this. Where they run out, a load wants memory.
const MOST_LOADS: u64 = 1 << 63;

impl Net {
    /// Loads the rows of the files. Operator states for interfaces that are gone are forgotten. The
    /// graph of devices is made anew.
    ///
    /// # Errors
    ///
    /// `Limit` where a list of rows is longer than it may be, and `Memory`. Then nothing changes.
    pub fn load(
        &mut self,
        alloc: Global,
        network: &Package,
        wireless: &Package,
    ) -> Result<(), NetError>
        requires { self.old.notices ≡ [] }
        ensures ok { OnOk result
            (IsAfter self.old (event_of.Load (conf network.now wireless.now)) self.new) }
        ensures within { OnOk result (passed_limit (conf network.now wireless.now) ≡ None) }
        ensures refused { (e : NetError) → result ≡ Err e → (e ≡ error.Memory) ⊎ ((number : ℕ)
            × (e ≡ error.Limit number)
            × (passed_limit (conf network.now wireless.now) ≡ Some number)) }
        ensures err { OnErr result (self.new ≡ self.old) }
        ensures kernel { HasSameKernel self.old self.new }
        ensures loads { OnOk result (self.new.loads ≡ self.old.loads + 1) }
    {
        let read = read_conf(alloc, network, wireless);
        match told_rows(read) {
            Ok(rows) => self.take_rows(alloc, rows),
            Err(error) => Err(error),
        }
    }

    // Takes rows that were read. All memory is taken before; the graph, which takes the old one in,
    // comes last.
    fn take_rows(&mut self, alloc: Global, rows: Conf) -> Result<(), NetError>
        requires { AreRead rows }
        ensures ok { OnOk result (IsAfter self.old (event_of.Load rows) self.new) }
        ensures causes { Answers None result }
        ensures err { OnErr result (self.new ≡ self.old) }
        ensures kernel { HasSameKernel self.old self.new }
        ensures loads { OnOk result (self.new.loads ≡ self.old.loads + 1) }
    {
        if self.follower.settling.graph.loaded() >= MOST_LOADS {
            return Err(NetError::Memory);
        }
        let Ok(made) = Rebuild::of(alloc, &self.follower, Event::Load(rows)) else {
            return Err(NetError::Memory);
        };
        let _rows = made.inputs.conf();
        let Ok(()) = load(alloc, &mut self.follower, made) else {
            return Err(NetError::Memory);
        };
        Ok(())
    }
}

fn told_rows(read: Result<Conf, ConfError>) -> Result<Conf, NetError>
    ensures { result ≡ spec.told_rows read }
{
    match read {
        Ok(rows) => Ok(rows),
        Err(ConfError::Limit { number }) => Err(NetError::Limit { number }),
        Err(ConfError::Memory) => Err(NetError::Memory),
    }
}

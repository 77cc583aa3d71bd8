//! One more plain name.
ghost use Rattle.std.specs.Prelude.{◌≡◌, [], map, is_some, None, IfOk, OnOk, OnErr};
ghost use Rattle.net_rows.specs.Dotted.{vlan_parts};
ghost use Rattle.net_rules.specs.Inputs as inputs;
ghost use Rattle.graph_rules.specs.State.{nothing_known, place_among};
ghost use Rattle.graph_rules.specs.After.{with_name};
ghost use Rattle.graph_tables.specs.Wishes.{mays};
ghost use Rattle.graph_tables.specs.Wished.{wish_in};
ghost use Rattle.graph_tables.specs.Lists.{HaveSame};
ghost use Rattle.graph_tables.specs.Whole.{IsWhole};
ghost use Rattle.dev_graph.specs.Added.{added};

use graph_counts::CountedNames;
use graph_names::Names;
use graph_objects::{DeviceObjects, Wish};
use kern_model::{DevName, Object};
use net_rows::{Conf, vlan_parts};
use plane_io::{Items, Memory};
use std::alloc::Global;

/// Whether a name is of the form X.N.
fn is_dotted(name: &DevName) -> bool
    ensures { result ≡ is_some (vlan_parts name.now) }
{
    vlan_parts(name).is_some()
}

/// What one more plain name may want is expected beside what the others may: that it is up, unless
/// it is of the form X.N.
pub(crate) fn expect_plain(
    names: &CountedNames,
    name: DevName,
    objects: &mut DeviceObjects,
) -> Result<(), Memory>
    requires whole { IsWhole names.now }
    requires other { place_among names.now.names name ≡ None }
    requires wishes { HaveSame objects.old.wishes (map (wish_in names.now) (mays names.now)) }
    ensures held { objects.new.held ≡ objects.old.held }
    ensures ok { OnOk result (HaveSame objects.new.wishes
        (map (wish_in (added names.now name)) (mays (added names.now name)))) }
    ensures err { OnErr result (objects.new.wishes ≡ objects.old.wishes) }
{
    if is_dotted(&name) {
        return Ok(());
    }
    let id = names.names().len();
    objects.expect(Wish {
        object: Object::Up { name },
        first: id,
        second: id,
        wanted: false,
    })
}

fn no_conf(alloc: Global) -> Conf
    ensures { result ≡ inputs.no_conf }
{
    Conf {
        interfaces: Items::new(alloc),
        devices: Items::new(alloc),
        routes: Items::new(alloc),
        radios: Items::new(alloc),
        names: Items::new(alloc),
        vlans: Items::new(alloc),
    }
}

/// One plain name alone.
pub(crate) fn one_plain(alloc: Global, name: DevName) -> Result<CountedNames, Memory>
    ensures { IfOk result (λ names. names ≡ record nothing_known { names = with_name [] name }) }
{
    CountedNames::load(alloc, &no_conf(alloc), &[name], &[], &Names::new(alloc))
}

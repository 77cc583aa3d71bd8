//! What is looked up by name.
ghost use Rattle.std.specs.Prelude.{◌≡◌, Some, map, filter, slice_get};
ghost use Rattle.std.specs.BTreeMap.{get};
ghost use Rattle.std.specs.Ordering.{nat_cmp};
ghost use Rattle.std.specs.Cmp.Lexicographic.{slice_cmp};
ghost use Rattle.net_rules.specs.declared.inputs.Inputs.{Inputs};
ghost use Rattle.net_rules.specs.Rows.{names_of};
ghost use Rattle.net_view.specs.Places.{place_of};
ghost use Rattle.net_view.specs.RadioPorts.{group_in};
ghost use Rattle.net_wants.specs.Grouped.{is_route_named};
ghost use Rattle.net_reach.specs.Groups.{AreMembers};
ghost use Rattle.net_reach.specs.Reach.{IsReachOf, is_at_l3_device};

use crate::groups::places_at;
use crate::reach::Reach;
use kern_model::DevName;
use plane_io::Text;
use std::collections::BTreeMap;

impl Reach {
    /// The place of the first interface of a name.
    pub fn interface_place(&self, name: &Text) -> Option<usize>
        ensures { (inputs : Inputs) → IsReachOf inputs self.now
            → result ≡ place_of (map (λ row. row.name) inputs.conf.interfaces) name.now }
    {
        place_of_text(&self.interfaces, name)
    }

    /// The place of the first radio of a name.
    pub fn radio_place(&self, name: &Text) -> Option<usize>
        ensures { (inputs : Inputs) → IsReachOf inputs self.now
            → result ≡ place_of (map (λ row. row.name) inputs.conf.radios) name.now }
    {
        place_of_text(&self.radios, name)
    }

    /// The place of the present device of a name.
    pub fn device_place(&self, name: &DevName) -> Option<usize>
        ensures { (inputs : Inputs) → IsReachOf inputs self.now
            → result ≡ place_of (map (λ e. e.0) inputs.devices) name.now }
    {
        place_of_name(&self.devices, name)
    }

    /// The place of the first row of a name.
    pub fn row_place(&self, name: &DevName) -> Option<usize>
        ensures { (inputs : Inputs) → IsReachOf inputs self.now
            → result ≡ place_of (names_of inputs.conf) name.now }
    {
        place_of_name(&self.rows, name)
    }

    /// The places of the interfaces whose open request was last answered with a device.
    pub fn interfaces_told(&self, l3_device: &DevName) -> &[usize]
        ensures { (inputs : Inputs) → IsReachOf inputs self.now
            → AreMembers result.now (is_at_l3_device inputs l3_device.now) inputs.conf.interfaces }
    {
        places_at(&self.at_l3_device, l3_device)
    }

    /// The places of the routes of an interface that have no fault and are not disabled, in file
    /// order.
    pub fn routes_of(&self, interface: &Text) -> &[usize]
        ensures { (inputs : Inputs) → IsReachOf inputs self.now
            → map (slice_get inputs.conf.routes) result.now
            ≡ map Some (filter (is_route_named inputs.conf interface.now) inputs.conf.routes) }
    {
        places_of_text(&self.routes, interface)
    }
}

fn place_of_text(places: &BTreeMap<Text, usize>, name: &Text) -> Option<usize>
    ensures { result ≡ get (slice_cmp nat_cmp) places.now name.now }
{
    match places.get(name) {
        Some(place) => Some(*place),
        None => None,
    }
}

fn place_of_name(places: &BTreeMap<DevName, usize>, name: &DevName) -> Option<usize>
    ensures { result ≡ get (slice_cmp nat_cmp) places.now name.now }
{
    match places.get(name) {
        Some(place) => Some(*place),
        None => None,
    }
}

fn places_of_text<'a>(groups: &'a BTreeMap<Text, Vec<usize>>, name: &Text) -> &'a [usize]
    ensures { result.now ≡ group_in groups.now name.now }
{
    match groups.get(name) {
        Some(places) => places.as_slice(),
        None => &[],
    }
}

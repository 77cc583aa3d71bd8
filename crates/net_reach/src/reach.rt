ghost use Rattle.std.specs.Prelude.{◌≡◌, IfOk};
ghost use Rattle.net_rules.specs.declared.inputs.Inputs.{Inputs};
ghost use Rattle.net_rules.specs.Inputs.{no_inputs};
ghost use Rattle.net_reach.specs.Reach.{IsReachOf, AreTouched};

use crate::above::{row_names, rows_above};
use crate::interfaces::{interfaces_at, interfaces_told};
use crate::place_set::PlaceSet;
use crate::routes::route_places;
use crate::walk::{climb, touch_at, touch_rows};
use kern_model::DevName;
use net_rules::Inputs;
use net_view::{Index, RadioPorts};
use plane_io::{Memory, Text};
use std::alloc::Global;
use std::collections::BTreeMap;

/// Room for one walk up from a name, and what the last one found.
#[derive(Drop)]
pub struct Visit {
    /// The places of the rows that stand on the name.
    pub rows: PlaceSet,
    /// The places of the interfaces that are touched.
    pub touched: PlaceSet,
}

impl Visit {
    fn of(alloc: Global, row_count: usize, interface_count: usize) -> Result<Visit, Memory>
        ensures rows { IfOk result (λ visit. visit.rows.bound ≡ row_count) }
        ensures interfaces { IfOk result (λ visit. visit.touched.bound ≡ interface_count) }
    {
        let rows = PlaceSet::new(alloc, row_count)?;
        let touched = PlaceSet::new(alloc, interface_count)?;
        Ok(Visit { rows, touched })
    }

    fn new(alloc: Global) -> Visit
        ensures rows { result.rows.bound ≡ 0 }
        ensures interfaces { result.touched.bound ≡ 0 }
    {
        Visit {
            rows: PlaceSet::empty(alloc),
            touched: PlaceSet::empty(alloc),
        }
    }
}

/// What reaches what, by name. Of several with one name the first has the place.
#[derive(Drop)]
pub struct Reach {
    pub interfaces: BTreeMap<Text, usize>,
    pub radios: BTreeMap<Text, usize>,
    /// The places of the present devices.
    pub devices: BTreeMap<DevName, usize>,
    pub rows: BTreeMap<DevName, usize>,
    /// The names of the rows, by place.
    pub names: Vec<DevName>,
    /// The places of the rows that stand right on a name.
    pub above: BTreeMap<DevName, Vec<usize>>,
    /// The places of the interfaces whose device is a name.
    pub at_device: BTreeMap<DevName, Vec<usize>>,
    /// The places of the interfaces whose open request was last answered with a device.
    pub at_l3_device: BTreeMap<DevName, Vec<usize>>,
    /// The places of the routes of an interface, in file order.
    pub routes: BTreeMap<Text, Vec<usize>>,
    pub visit: Visit,
}

impl Reach {
    /// What reaches what where there are no inputs. It takes no memory.
    pub fn new(alloc: Global) -> Reach
        ensures { IsReachOf no_inputs result }
    {
        Reach {
            interfaces: BTreeMap::new(alloc),
            radios: BTreeMap::new(alloc),
            devices: BTreeMap::new(alloc),
            rows: BTreeMap::new(alloc),
            names: Vec::new(alloc),
            above: BTreeMap::new(alloc),
            at_device: BTreeMap::new(alloc),
            at_l3_device: BTreeMap::new(alloc),
            routes: BTreeMap::new(alloc),
            visit: Visit::new(alloc),
        }
    }

    /// What reaches what by inputs.
    ///
    /// # Errors
    ///
    /// `Memory` where there is not enough of it.
    pub fn of(alloc: Global, inputs: &Inputs) -> Result<Reach, Memory>
        ensures { IfOk result (λ reach. IsReachOf inputs.now reach) }
    {
        let ports = RadioPorts::of(alloc, inputs)?;
        let name_rows = inputs.conf.names.as_slice();
        let names = row_names(alloc, name_rows)?;
        let above = rows_above(alloc, &ports, inputs, name_rows)?;
        let interface_rows = inputs.conf.interfaces.as_slice();
        let at_device = interfaces_at(alloc, &ports, inputs, interface_rows)?;
        let at_l3_device = interfaces_told(alloc, &ports.index, inputs, interface_rows)?;
        let routes = route_places(alloc, inputs, inputs.conf.routes.as_slice())?;
        let visit = Visit::of(alloc, name_rows.len(), interface_rows.len())?;
        let RadioPorts { index, .. } = ports;
        let Index {
            names: rows,
            devices,
            interfaces,
            radios,
            ..
        } = index;
        Ok(Reach {
            interfaces,
            radios,
            devices,
            rows,
            names,
            above,
            at_device,
            at_l3_device,
            routes,
            visit,
        })
    }

    /// Finds the interfaces that something touches that happens to a name: those whose device or
    /// answered layer-3 device it is, or stands on it. Their places are in `visit.touched`, each
    /// once, rising. It takes no memory.
    pub fn touch_above(&mut self, name: &DevName)
        ensures touched { (inputs : Inputs) → IsReachOf inputs self.old
            → AreTouched inputs name.now self.new.visit.touched.list }
        ensures stays { (inputs : Inputs) → IsReachOf inputs self.old → IsReachOf inputs self.new }
    {
        let names = self.names.as_slice();
        climb(&mut self.visit.rows, &self.above, names, name);
        let touched = &mut self.visit.touched;
        touched.clear();
        touch_at(touched, &self.at_device, &self.at_l3_device, name);
        let rows = self.visit.rows.places();
        touch_rows(touched, &self.at_device, &self.at_l3_device, names, rows);
        touched.sort();
    }
}

//! The port of a radio that is the device of an interface.
ghost use Rattle.std.specs.Prelude.{◌≡◌, [], option_to_list, unwrap_or};
ghost use Rattle.std.specs.List.{filter_map, zip};
ghost use Rattle.std.specs.Option.{option_or};
ghost use Rattle.std.specs.BTreeMap.{get};
ghost use Rattle.std.specs.Ordering.{nat_cmp};
ghost use Rattle.std.specs.Cmp.Lexicographic.{slice_cmp};
ghost use Rattle.net_rules.specs.RadioPorts as spec;
ghost use Rattle.net_view.specs.Places.{is_place};
ghost use Rattle.net_view.specs.RadioPorts.{port_of_pair, enabled};
ghost use Rattle.net_looks.specs.Look.{IsLookOf, facts_at};
ghost use Rattle.net_looks.specs.Ports.{port_for, told_at};

use crate::look::Look;
use kern_model::DevName;
use net_rows::{RadioRow, WifiRow};
use plane_io::{Items, Text};

impl Look<'_> {
    /// The first port of a radio whose row names the interface.
    pub(crate) fn first_port(&self, interface: &Text) -> Option<DevName>
        requires { IsLookOf self.now }
        ensures { result ≡ port_for interface.now (spec.answered_ports (facts_at self.now)) }
    {
        let radios = self.inputs.conf().radios.as_slice();
        let mut found = None;
        for (place, radio) in radios.iter().enumerate() {
            found = self.port_or(found, radio, place, interface);
        }
        found
    }

    // The port that was found, else the first that the radio at a place tells.
    fn port_or(
        &self,
        found: Option<DevName>,
        radio: &RadioRow,
        place: usize,
        interface: &Text,
    ) -> Option<DevName>
        requires { IsLookOf self.now }
        ensures { result
            ≡ option_or found (port_for interface.now (told_at self.now place radio.now)) }
    {
        match found {
            Some(port) => Some(port),
            None => self.port_at(radio, place, interface),
        }
    }

    // The first port that the radio at a place tells, where it is the first of its name.
    fn port_at(&self, radio: &RadioRow, place: usize, interface: &Text) -> Option<DevName>
        requires { IsLookOf self.now }
        ensures { result ≡ port_for interface.now (told_at self.now place radio.now) }
    {
        if self.is_first_radio(&radio.name, place) {
            self.port_of_radio(radio, interface)
        } else {
            None
        }
    }

    fn is_first_radio(&self, name: &Text, place: usize) -> bool
        ensures { result ≡ is_place place (get (slice_cmp nat_cmp)
            self.now.reach.now.radios name.now) }
    {
        match self.reach.radios.get(name) {
            Some(first) => *first == place,
            None => false,
        }
    }

    // The first port of the radio whose row names the interface.
    fn port_of_radio(&self, radio: &RadioRow, interface: &Text) -> Option<DevName>
        requires { IsLookOf self.now }
        ensures { result
            ≡ port_for interface.now (spec.ports_of_radio (facts_at self.now) radio.now) }
    {
        match self.radio_request(&radio.name) {
            Some(asked) => self.latest_port(radio.rows.as_slice(), &asked.ports, interface),
            None => None,
        }
    }

    fn latest_port(
        &self,
        rows: &[WifiRow],
        latest: &Option<Items<Option<DevName>>>,
        interface: &Text,
    ) -> Option<DevName>
        requires { IsLookOf self.now }
        ensures { result ≡ port_for interface.now (filter_map (port_of_pair (facts_at self.now))
            (zip (enabled rows.now) (unwrap_or latest.now []))) }
    {
        match latest {
            Some(told) => self.told_port(rows, told.as_slice(), interface),
            None => None,
        }
    }

    // The first port that an answer tells for an enabled one of these rows that names the
    // interface.
    fn told_port(
        &self,
        rows: &[WifiRow],
        told: &[Option<DevName>],
        interface: &Text,
    ) -> Option<DevName>
        requires { IsLookOf self.now }
        ensures { result ≡ port_for interface.now (filter_map (port_of_pair (facts_at self.now))
            (zip (enabled rows.now) told.now)) }
    {
        let mut rest = told;
        for row in rows {
            if !row.disabled {
                let Some((port, more)) = rest.split_first() else {
                    return None;
                };
                if let Some(port) = self.port_of_row(&row.network, port, interface) {
                    return Some(port);
                }
                rest = more;
            }
        }
        None
    }

    // The port that is told for a row, where the row names the interface.
    fn port_of_row(
        &self,
        network: &Option<Text>,
        port: &Option<DevName>,
        interface: &Text,
    ) -> Option<DevName>
        requires { IsLookOf self.now }
        ensures { result ≡ port_for interface.now (option_to_list
            (spec.answered_port (facts_at self.now) network.now port.now)) }
    {
        let Some(network) = network else {
            return None;
        };
        let Some(port) = port else {
            return None;
        };
        if self.is_plain(port) & (network.as_bytes() == interface.as_bytes()) {
            Some(*port)
        } else {
            None
        }
    }
}

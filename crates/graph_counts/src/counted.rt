ghost use Rattle.std.specs.Prelude.{◌≡◌, ◌<◌, ◌≤◌, ◌+◌, ◌*◌, Some, None, length, IfOk, OnOk, OnErr};
ghost use Rattle.std.specs.Option.{option_map};
ghost use Rattle.kern_model.specs.Kernel.{with_carrier};
ghost use Rattle.graph_rules.specs.State.{place_among, names_in};
ghost use Rattle.graph_rules.specs.After.{known_of, name_at, with_claims, with_device, with_name};
ghost use Rattle.graph_rules.specs.Conditions.{ArePorts, CanLoad};
ghost use Rattle.graph_counts.specs.Told.{HasFewClaims};
ghost use Rattle.graph_rules.specs.Answers as spec;
ghost use Rattle.graph_rules.specs.Edges.{changed_edges};
ghost use Rattle.graph_counts.specs.Counted.{name_of};
ghost use Rattle.graph_counts.specs.Uses.{TellsUses};

use crate::edges::port_edges;
use crate::loading::counts_of;
use crate::nodes::rowless_row;
use graph_names::{Names, Told, kept_names};
use graph_rules::{DevId, RadioPort};
use kern_model::{DevName, Device};
use net_copies::{copy_conf, copy_items};
use net_rows::{Conf, NameRow, VlanRow};
use plane_io::{Items, Memory};
use std::alloc::Global;
use std::marker::Model;
use std::sync::ledger::Ledger;
use use_counts::{Graph, MarkedIds, Steps};

/// Names with their rows, their devices, their claims and the ports of radios, and the counts over
/// them.
#[derive(Drop)]
pub struct CountedNames {
    rows: Items<NameRow>,
    vlans: Items<VlanRow>,
    names: Names,
    radio: Items<RadioPort>,
    counts: Graph,
}

impl Model for CountedNames {
    ghost use Rattle.graph_rules.specs.State.{Known};

    ghost Value = { Known };

    ghost use Rattle.graph_counts.specs.Inside.{known_of, IsTied};

    ghost view = { known_of };

    ghost invariant = { IsTied };
}

impl CountedNames {
    /// The rows of a configuration with further names and ports of radios. Names keep the devices
    /// and the claims that they have among the old ones.
    pub fn load(
        alloc: Global,
        conf: &Conf,
        plain: &[DevName],
        radio: &[RadioPort],
        old: &Names,
    ) -> Result<CountedNames, Memory>
        requires can { CanLoad conf.now plain.now radio.now }
        requires few { HasFewClaims old.now }
        ensures { IfOk result (λ g. g ≡ known_of old.now conf.now plain.now radio.now) }
    {
        let rows = conf.names.as_slice();
        let names = kept_names(alloc, old, rows, plain)?;
        let counts = counts_of(alloc, &names, rows, plain, radio)?;
        let ports = copy_items(alloc, radio)?;
        let Conf {
            names: rows,
            vlans,
            ..
        } = copy_conf(alloc, conf)?;
        Ok(CountedNames {
            rows,
            vlans,
            names,
            radio: ports,
            counts,
        })
    }

    /// One more plain name, without a device and without claims. Where memory lacks, all stays.
    pub fn add_plain(&mut self, alloc: Global, name: DevName) -> Result<DevId, Memory>
        requires { place_among self.old.names name ≡ None }
        ensures ok { OnOk result (self.new ≡ record self.old {
          names = with_name self.old.names name;
        }) }
        ensures id { IfOk result (λ id. id.0 ≡ length self.old.names) }
        ensures err { OnErr result (self.new ≡ self.old) }
    {
        let id = self.names.len();
        let told = Told {
            device: None,
            claims: 0,
        };
        self.names.add(name, told)?;
        match self.counts.add(alloc, rowless_row(&name)) {
            Ok(()) => Ok(DevId(id)),
            Err(error) => {
                self.names.forget_last();
                Err(error)
            }
        }
    }

    /// The names with their devices and claims.
    pub fn names(&self) -> &Names
        ensures names { result.now ≡ self.now.names }
        ensures few { HasFewClaims self.now.names }
    {
        &self.names
    }

    /// The rows of the names.
    pub fn rows(&self) -> &[NameRow]
        ensures { result.now ≡ self.now.rows }
    {
        self.rows.as_slice()
    }

    /// The rows of the VLANs of bridges.
    pub fn vlans(&self) -> &[VlanRow]
        ensures { result.now ≡ self.now.vlans }
    {
        self.vlans.as_slice()
    }

    /// The ports of radios.
    pub fn radio(&self) -> &[RadioPort]
        ensures { result.now ≡ self.now.radio }
    {
        self.radio.as_slice()
    }

    /// Radios have these ports in place of their old ones. Where memory lacks, all stays.
    pub fn set_ports(&mut self, alloc: Global, radio: &[RadioPort]) -> Result<(), Memory>
        requires { ArePorts self.old.rows (names_in self.old) radio.now }
        ensures ok { OnOk result (self.new ≡ record self.old { radio = radio.now }) }
        ensures err { OnErr result (self.new ≡ self.old) }
    {
        let kept = copy_items(alloc, radio)?;
        let ports = port_edges(alloc, &self.names, self.rows.as_slice(), radio)?;
        // The counts have room for so many edges.
        if !self.counts.can_join(&ports) {
            return Err(Memory);
        }
        self.counts.set_ports(alloc, &ports)?;
        self.radio = kept;
        Ok(())
    }

    /// The id of a name, or none where it is not among them.
    pub fn find(&self, name: &DevName) -> Option<DevId>
        ensures { option_map (λ id. id.0) result ≡ place_among self.now.names name.now }
    {
        match self.names.find(name) {
            Some(id) => Some(DevId(id)),
            None => None,
        }
    }

    /// Whether the name of an id is available.
    pub fn available(&self, id: DevId) -> bool
        requires { id.0 < length self.now.names }
        ensures { result ≡ spec.available_in self.now (name_of self.now id.0) }
    {
        self.counts.available(id.0)
    }

    /// Whether the name of an id has link.
    pub fn link(&self, id: DevId) -> bool
        requires { id.0 < length self.now.names }
        ensures { result ≡ spec.link_in self.now (name_of self.now id.0) }
    {
        self.counts.link(id.0)
    }

    /// Whether the name of an id is used.
    pub fn used(&self, id: DevId) -> bool
        requires { id.0 < length self.now.names }
        ensures { result ≡ spec.used_in self.now (name_of self.now id.0) }
    {
        self.counts.used(id.0)
    }

    /// How many use the name of an id.
    pub fn users(&self, id: DevId) -> u32
        requires { id.0 < length self.now.names }
        ensures { result ≡ spec.users_in self.now (name_of self.now id.0) }
    {
        self.counts.users(id.0)
    }

    /// The device of an id, where it is there.
    pub fn device(&self, id: DevId) -> Option<Device>
        requires { id.0 < length self.now.names }
        ensures { result ≡ (name_at self.now.names id.0).device }
    {
        self.names.device(id.0)
    }

    /// A device is there.
    pub fn set_present<L: Ledger>(
        &mut self,
        id: DevId,
        device: Device,
        uses: &mut MarkedIds,
        steps: &mut Steps<L>,
    )
        requires within { id.0 < length self.old.names }
        requires room { length self.old.names ≤ uses.old.room }
        ensures known { self.new ≡ record self.old {
          names = with_device self.old.names id.0 (Some device);
        } }
        ensures cost { steps.new ≤ steps.old + (1 + 2 * changed_edges self.old self.new) }
        ensures uses { TellsUses self.old self.new uses.old uses.new }
    {
        self.names.set_device(id.0, Some(device));
        self.counts.set_present(id.0, device.carrier, uses, steps);
    }

    /// A device is gone.
    pub fn set_absent<L: Ledger>(&mut self, id: DevId, uses: &mut MarkedIds, steps: &mut Steps<L>)
        requires within { id.0 < length self.old.names }
        requires room { length self.old.names ≤ uses.old.room }
        ensures known { self.new
            ≡ record self.old { names = with_device self.old.names id.0 None } }
        ensures cost { steps.new ≤ steps.old + (1 + 2 * changed_edges self.old self.new) }
        ensures uses { TellsUses self.old self.new uses.old uses.new }
    {
        self.names.set_device(id.0, None);
        self.counts.set_absent(id.0, uses, steps);
    }

    /// The carrier of a device is on or off. Of one that is not there nothing is told.
    pub fn set_carrier<L: Ledger>(
        &mut self,
        id: DevId,
        on: bool,
        uses: &mut MarkedIds,
        steps: &mut Steps<L>,
    )
        requires within { id.0 < length self.old.names }
        requires room { length self.old.names ≤ uses.old.room }
        ensures known { self.new ≡ record self.old {
          names = with_device self.old.names id.0
              (option_map (with_carrier on) (name_at self.old.names id.0).device);
        } }
        ensures cost { steps.new ≤ steps.old + (1 + 2 * changed_edges self.old self.new) }
        ensures uses { TellsUses self.old self.new uses.old uses.new }
    {
        if let Some(device) = self.names.device(id.0) {
            self.set_present(
                id,
                Device {
                    carrier: on,
                    ..device
                },
                uses,
                steps,
            );
        }
    }

    /// The name of an id has this many claims.
    pub fn set_claim<L: Ledger>(
        &mut self,
        id: DevId,
        claims: u32,
        uses: &mut MarkedIds,
        steps: &mut Steps<L>,
    )
        requires within { id.0 < length self.old.names }
        requires room { length self.old.names ≤ uses.old.room }
        requires few { claims ≤ 1024 }
        ensures known { self.new ≡ record self.old {
          names = with_claims self.old.names id.0 claims;
        } }
        ensures cost { steps.new ≤ steps.old + (1 + 2 * changed_edges self.old self.new) }
        ensures uses { TellsUses self.old self.new uses.old uses.new }
    {
        self.names.set_claims(id.0, claims);
        self.counts.set_claim(id.0, claims, uses, steps);
    }
}

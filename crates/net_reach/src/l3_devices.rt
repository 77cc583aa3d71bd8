//! The layer-3 devices that the latest answers tell.
ghost use Rattle.std.specs.Prelude.{◌≡◌, ℕ, List, Some, IfSome, OnOk, if◌then◌else◌};
ghost use Rattle.net_rules.specs.declared.inputs.Inputs.{Inputs};
ghost use Rattle.net_rules.specs.Rows as rows;
ghost use Rattle.net_view.specs.RadioPorts.{group_in};
ghost use Rattle.net_reach.specs.Groups.{HasRoomAt, Gains, without_place};
ghost use Rattle.net_reach.specs.Reach.{IsReachOf, interface_place};
ghost use Rattle.net_reach.specs.L3Devices.{TellsL3Device};

use crate::groups::{put_place, reserve_place, take_place};
use crate::reach::Reach;
use kern_model::DevName;
use plane_io::Memory;
use std::alloc::Global;
use std::collections::BTreeMap;

impl Reach {
    /// Takes room for one more interface that is told a layer-3 device.
    ///
    /// # Errors
    ///
    /// `Memory` where there is not enough of it. What reaches what stays in any case, and so does
    /// all room.
    pub fn reserve_l3_device(&mut self, alloc: Global, l3_device: &DevName) -> Result<(), Memory>
        ensures room { OnOk result (HasRoomAt self.new.at_l3_device l3_device.now) }
        ensures rooms { (name : List ℕ) → HasRoomAt self.old.at_l3_device name
            → HasRoomAt self.new.at_l3_device name }
        ensures stays { (inputs : Inputs) → IsReachOf inputs self.old → IsReachOf inputs self.new }
        ensures visit { self.new.visit ≡ self.old.visit }
    {
        reserve_place(alloc, &mut self.at_l3_device, l3_device)
    }

    /// The first row of an interface's name, at this place, is told another layer-3 device than it
    /// was, or none. It takes no memory.
    pub fn set_l3_device(&mut self, place: usize, was: Option<DevName>, l3_device: Option<DevName>)
        requires room { IfSome l3_device (HasRoomAt self.old.at_l3_device) }
        ensures told { (before now : Inputs) (interface : List ℕ) → IsReachOf before self.old
            → interface_place before.conf interface ≡ Some place
            → TellsL3Device before now interface was l3_device → IsReachOf now self.new }
        ensures visit { self.new.visit ≡ self.old.visit }
    {
        leave(&mut self.at_l3_device, was, place);
        join(&mut self.at_l3_device, l3_device, place);
    }
}

fn leave(groups: &mut BTreeMap<DevName, Vec<usize>>, was: Option<DevName>, place: usize)
    ensures places { (q : List ℕ) → group_in groups.new q ≡ (if rows.is_name was q
        then without_place (group_in groups.old q) place else group_in groups.old q) }
    ensures rooms { (q : List ℕ) → HasRoomAt groups.old q → HasRoomAt groups.new q }
{
    if let Some(was) = was {
        take_place(groups, &was, place);
    }
}

fn join(groups: &mut BTreeMap<DevName, Vec<usize>>, l3_device: Option<DevName>, place: usize)
    requires { IfSome l3_device (HasRoomAt groups.old) }
    ensures { Gains groups.old groups.new (λ q. rows.is_name l3_device q) place }
{
    if let Some(l3_device) = l3_device {
        put_place(groups, &l3_device, place);
    }
}

//! Devices that come and go.
ghost use Rattle.std.specs.Prelude.{◌≡◌, ◌++◌, [], ◌∷◌, ℕ, List, length, map, OnOk, OnErr};
ghost use Rattle.std.specs.Prelude.{bytes_eq};
ghost use Rattle.std.specs.Option.{option_map};
ghost use Rattle.std.specs.BTreeMap.{get};
ghost use Rattle.std.specs.Ordering.{nat_cmp};
ghost use Rattle.std.specs.Cmp.Lexicographic.{slice_cmp};
ghost use Rattle.plane_words.specs.Distinct.{AreDistinct};
ghost use Rattle.kern_model.specs.declared.object.Device.{Device};
ghost use Rattle.uci_tree.specs.Index.{HasNoted};
ghost use Rattle.net_rules.specs.declared.inputs.Inputs.{Inputs};
ghost use Rattle.net_rules.specs.After.{without_device};
ghost use Rattle.net_reach.specs.Gone as spec;
ghost use Rattle.net_reach.specs.Reach.{IsReachOf};

use crate::reach::Reach;
use kern_model::DevName;
use plane_io::Memory;
use std::collections::BTreeMap;

impl Reach {
    /// Notes the place of a device that came behind the present ones.
    ///
    /// # Errors
    ///
    /// `Memory` where there is not enough of it. Then all stays.
    pub fn add_device(&mut self, name: &DevName, place: usize) -> Result<(), Memory>
        ensures ok { (inputs : Inputs) (device : Device) → IsReachOf inputs self.old
            → place ≡ length inputs.devices → OnOk result (IsReachOf
            (record inputs { devices = inputs.devices ++ (name.now, device) ∷ [] }) self.new) }
        ensures err { (inputs : Inputs) → IsReachOf inputs self.old
            → OnErr result (IsReachOf inputs self.new) }
    {
        note_device(&mut self.devices, name, place)
    }

    /// Forgets a device that went. Those behind it are one place further to the front.
    pub fn remove_device(&mut self, name: &DevName)
        ensures { (inputs : Inputs) → IsReachOf inputs self.old
            → AreDistinct (map (λ e. e.0) inputs.devices) → IsReachOf
            (record inputs { devices = without_device name.now inputs.devices }) self.new }
    {
        forget_device(&mut self.devices, name);
    }
}

// Notes the place of a name that has none.
fn note_device(
    devices: &mut BTreeMap<DevName, usize>,
    name: &DevName,
    place: usize,
) -> Result<(), Memory>
    ensures ok { OnOk result (HasNoted devices.old devices.new name.now place) }
    ensures err { OnErr result (devices.new.entries ≡ devices.old.entries) }
{
    if devices.contains_key(name) {
        return Ok(());
    }
    let _none = devices.insert(*name, place)?;
    Ok(())
}

// Takes the place of a name out. Those behind it become one lower.
fn forget_device(devices: &mut BTreeMap<DevName, usize>, name: &DevName)
    ensures { (q : List ℕ) → get (slice_cmp nat_cmp) devices.new q ≡ spec.place_left
        (get (slice_cmp nat_cmp) devices.old name.now) (bytes_eq name.now q)
        (get (slice_cmp nat_cmp) devices.old q) }
{
    match devices.remove(name) {
        Some(gone) => lower_behind(devices, gone),
        None => {}
    }
}

fn lower_behind(devices: &mut BTreeMap<DevName, usize>, gone: usize)
    ensures { (q : List ℕ) → get (slice_cmp nat_cmp) devices.new q
        ≡ option_map (spec.lowered gone) (get (slice_cmp nat_cmp) devices.old q) }
{
    devices.retain(|_name, place| {
        *place = lowered(gone, *place);
        true
    });
}

fn lowered(gone: usize, place: usize) -> usize
    ensures { result ≡ spec.lowered gone place }
{
    if gone < place { place - 1 } else { place }
}

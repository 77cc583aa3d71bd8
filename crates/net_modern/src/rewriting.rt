ghost use Rattle.std.specs.Prelude.{◌≡◌, ◌++◌, ◌∷◌, [], IfOk, OnOk};
ghost use Rattle.uci_tree.specs.declared.package.Package.{Package};
ghost use Rattle.net_modern.specs.Rules as rules;
ghost use Rattle.net_modern.specs.Names.{AreNames, AddsNames, is_among};
ghost use Rattle.net_modern.specs.Rewriting as spec;
ghost use Rattle.net_modern.specs.State.{progress_of};

use crate::names::{add_name_of, device_names};
use crate::rules::{OverBridge, bridge_name, is_bridged, over_bridge, rewritten};
use plane_io::{Items, Memory, Text};
use std::alloc::Global;
use std::collections::BTreeSet;
use uci_tree::{Package, Section, copy_package};

/// A `network` package as OpenWrt writes it from release 21.02 on. Only want of memory refuses it.
///
/// The sections are gone through in file order:
/// - Of a `device` section of type `bridge` the words of `ifname` become its `ports`.
/// - A named interface of type `bridge` without `device` is put over a bridge. The bridge's
///   `device` section is added at the end, unless a `device` section has the bridge's name by then.
/// - Of a named interface without `type` the one word of `ifname` becomes its `device`; where it
///   has `device`, `ifname` goes.
///
/// A package that is written so already stays as it is.
pub fn modern(alloc: Global, network: &Package) -> Result<Package, Memory>
    ensures { IfOk result (λ tree. tree ≡ spec.modern network.now) }
{
    let Package {
        name,
        sections,
        made,
    } = copy_package(alloc, network)?;
    let mut progress = Progress::start(alloc, sections.as_slice(), made)?;
    for section in sections.into_vec() {
        progress.take(alloc, section)?;
    }
    progress.finish(name)
}

/// A package while its sections are gone through.
#[derive(Drop)]
struct Progress {
    before: Vec<Section>,
    added: Vec<Section>,
    made: u64,
    /// The names that `device` sections have.
    names: BTreeSet<Text>,
}

impl Progress {
    fn start(alloc: Global, sections: &[Section], made: u64) -> Result<Progress, Memory>
        ensures start { IfOk result (λ progress. progress_of progress ≡ spec.at_start made) }
        ensures names { IfOk result (λ progress. AreNames progress.names sections.now) }
    {
        Ok(Progress {
            before: Vec::new(alloc),
            added: Vec::new(alloc),
            made,
            names: device_names(alloc, sections)?,
        })
    }

    fn take(&mut self, alloc: Global, section: Section) -> Result<(), Memory>
        ensures progress { OnOk result (progress_of self.new ≡ spec.after_section
            (is_among self.old.names (rules.bridge_name section)) (progress_of self.old) section) }
        ensures names { OnOk result (AddsNames self.old.names self.new.names (spec.added_for
            (is_among self.old.names (rules.bridge_name section)) self.old.made section)) }
    {
        if self.gets_bridge(alloc, &section)? {
            return self.add_bridge(alloc, section);
        }
        self.before.push(rewritten(alloc, section)?)?;
        Ok(())
    }

    fn gets_bridge(&self, alloc: Global, section: &Section) -> Result<bool, Memory>
        ensures { IfOk result (λ gets. gets ≡ spec.gets_bridge
            (is_among self.now.names (rules.bridge_name section.now)) section.now) }
    {
        if !is_bridged(section) {
            return Ok(false);
        }
        let bridge = bridge_name(alloc, section)?;
        Ok(!self.names.contains(&bridge))
    }

    fn add_bridge(&mut self, alloc: Global, section: Section) -> Result<(), Memory>
        ensures before { OnOk result
            (self.new.before.items ≡ self.old.before.items ++ rules.over_bridge section ∷ []) }
        ensures added { OnOk result (self.new.added.items ≡ self.old.added.items
            ++ rules.bridge_section (spec.one_more self.old.made) section ∷ []) }
        ensures made { OnOk result (self.new.made ≡ spec.one_more self.old.made) }
        ensures names { OnOk result (AddsNames self.old.names self.new.names
            (rules.bridge_section (spec.one_more self.old.made) section ∷ [])) }
    {
        let made = self.made.saturating_add(1);
        let OverBridge { interface, bridge } = over_bridge(alloc, section, made)?;
        add_name_of(alloc, &mut self.names, &bridge)?;
        self.before.push(interface)?;
        self.added.push(bridge)?;
        self.made = made;
        Ok(())
    }

    fn finish(self, name: Text) -> Result<Package, Memory>
        ensures { IfOk result (λ tree. (other : Package) → other.name ≡ name →
            tree ≡ spec.finished other (progress_of self)) }
    {
        let Progress {
            mut before,
            added,
            made,
            ..
        } = self;
        for section in added {
            before.push(section)?;
        }
        Ok(Package {
            name,
            sections: Items::from_vec(before),
            made,
        })
    }
}

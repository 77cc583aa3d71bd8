ghost use Rattle.std.specs.Prelude.{◌≡◌, ◌<◌, ◌^◌, ◌-◌, [], None, length, take, OnOk, OnErr};
ghost use Rattle.graph_rules.specs.State.{place_among};
ghost use Rattle.graph_rules.specs.After.{name_at, with_device, with_claims};
ghost use Rattle.graph_names.specs.Table.{with_told};

use indexmap::IndexMap;
use kern_model::{DevName, Device};
use plane_io::Memory;
use std::alloc::Global;
use std::marker::Model;

/// What is told of a name: its device, where that is there, and how many claim it.
#[derive(Clone, Copy)]
pub struct Told {
    pub device: Option<Device>,
    pub claims: u32,
}

/// Names, each once, with what is told of them.
#[derive(Drop)]
pub struct Names {
    told: IndexMap<DevName, Told>,
}

impl Model for Names {
    ghost use Rattle.std.specs.Prelude.{List};
    ghost use Rattle.graph_rules.specs.State.{Named};

    ghost Value = { List Named };

    ghost use Rattle.graph_names.specs.Inside.{names_view};

    ghost view = { names_view };
}

impl Names {
    /// No names.
    pub fn new(alloc: Global) -> Names
        ensures { result ≡ [] }
    {
        Names {
            told: IndexMap::new(alloc),
        }
    }

    /// How many names there are.
    pub fn len(&self) -> usize
        ensures length { result ≡ length self.now }
        ensures few { result < 2 ^ 63 }
    {
        self.told.len()
    }

    /// The id of a name, or none where it is not among them.
    pub fn find(&self, name: &DevName) -> Option<usize>
        ensures { result ≡ place_among self.now name.now }
    {
        self.told.get_index_of(name)
    }

    /// The name of an id.
    pub fn name(&self, id: usize) -> DevName
        requires { id < length self.now }
        ensures { result ≡ (name_at self.now id).name }
    {
        let (name, _) = self.told.get_index(id).unwrap();
        *name
    }

    /// The device of an id, where it is there.
    pub fn device(&self, id: usize) -> Option<Device>
        requires { id < length self.now }
        ensures { result ≡ (name_at self.now id).device }
    {
        self.told[id].device
    }

    /// How many claim the name of an id.
    pub fn claims(&self, id: usize) -> u32
        requires { id < length self.now }
        ensures { result ≡ (name_at self.now id).claims }
    {
        self.told[id].claims
    }

    /// The device of an id is there, as given, or not.
    pub fn set_device(&mut self, id: usize, device: Option<Device>)
        requires { id < length self.old }
        ensures { self.new ≡ with_device self.old id device }
    {
        self.told[id].device = device;
    }

    /// An id has this many claims.
    pub fn set_claims(&mut self, id: usize, claims: u32)
        requires { id < length self.old }
        ensures { self.new ≡ with_claims self.old id claims }
    {
        self.told[id].claims = claims;
    }

    /// One more name, at the end. Where memory lacks, all stays.
    pub fn add(&mut self, name: DevName, told: Told) -> Result<(), Memory>
        requires { place_among self.old name ≡ None }
        ensures ok { OnOk result (self.new ≡ with_told self.old name told) }
        ensures err { OnErr result (self.new ≡ self.old) }
    {
        let _none = self.told.insert(name, told)?;
        Ok(())
    }

    /// The last name is forgotten.
    pub fn forget_last(&mut self)
        requires { 0 < length self.old }
        ensures { self.new ≡ take (length self.old - 1) self.old }
    {
        let _last = self.told.pop();
    }
}

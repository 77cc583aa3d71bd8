ghost use Rattle.std.specs.Prelude.{◌≡◌, not, [], IfOk, OnOk, OnErr};
ghost use Rattle.net_devices.specs.EachOnce.{has, with_name};

use kern_model::DevName;
use plane_io::{Items, Memory, Text};
use std::alloc::Global;
use std::collections::BTreeSet;
use std::marker::Model;

/// Names, each once, in the order in which they came. Contracts see the list.
#[derive(Drop)]
pub struct NamesOnce {
    names: Vec<DevName>,
    known: BTreeSet<DevName>,
}

impl Model for NamesOnce {
    ghost use Rattle.std.specs.Prelude.{ℕ, List};

    ghost Value = { List (List ℕ) };

    ghost use Rattle.net_devices.specs.OnceInside.{names_view, KnowsNames};

    ghost view = { names_view };

    ghost invariant = { KnowsNames };
}

impl NamesOnce {
    /// No names.
    pub fn new(alloc: Global) -> NamesOnce
        ensures { result ≡ [] }
    {
        NamesOnce {
            names: Vec::new(alloc),
            known: BTreeSet::new(alloc),
        }
    }

    /// Adds the name at the end, where it is not among them, and tells whether it was added.
    pub fn add(&mut self, name: &DevName) -> Result<bool, Memory>
        ensures names { OnOk result (self.new ≡ with_name self.old name.now) }
        ensures added { IfOk result (λ added. added ≡ not (has self.old name.now)) }
        ensures err { OnErr result (self.new ≡ self.old) }
    {
        self.names.reserve(1)?;
        let added = self.known.insert(*name)?;
        if added {
            self.names.push_reserved(*name);
        }
        Ok(added)
    }

    /// Gives the names, without taking memory.
    pub fn into_items(self) -> Items<DevName>
        ensures { result ≡ self }
    {
        let NamesOnce { names, .. } = self;
        Items::from_vec(names)
    }
}

/// Texts, each once, in the order in which they came. Contracts see the list.
#[derive(Drop)]
pub struct TextsOnce {
    texts: Vec<Text>,
    known: BTreeSet<Text>,
}

impl Model for TextsOnce {
    ghost use Rattle.std.specs.Prelude.{ℕ, List};

    ghost Value = { List (List ℕ) };

    ghost use Rattle.net_devices.specs.OnceInside.{texts_view, KnowsTexts};

    ghost view = { texts_view };

    ghost invariant = { KnowsTexts };
}

impl TextsOnce {
    /// No texts.
    pub fn new(alloc: Global) -> TextsOnce
        ensures { result ≡ [] }
    {
        TextsOnce {
            texts: Vec::new(alloc),
            known: BTreeSet::new(alloc),
        }
    }

    /// Adds the text at the end, where it is not among them.
    pub fn add(&mut self, text: &Text) -> Result<(), Memory>
        ensures texts { OnOk result (self.new ≡ with_name self.old text.now) }
        ensures err { OnErr result (self.new ≡ self.old) }
    {
        let copy = text.copy()?;
        let key = text.copy()?;
        self.texts.reserve(1)?;
        let added = self.known.insert(key)?;
        if added {
            self.texts.push_reserved(copy);
        }
        Ok(())
    }

    /// Gives the texts, without taking memory.
    pub fn into_items(self) -> Items<Text>
        ensures { result ≡ self }
    {
        let TextsOnce { texts, .. } = self;
        Items::from_vec(texts)
    }
}

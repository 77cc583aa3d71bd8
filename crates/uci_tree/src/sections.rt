ghost use Rattle.std.specs.Prelude.{◌≡◌, ◌<◌, ◌+◌, length, Ok, IfOk, OnOk, IfErr, true, false};
ghost use Rattle.uci_tree.specs.Fold as fold;
ghost use Rattle.uci_tree.specs.Index.{HasNoted, IsIndexed, IsLack, draft_of};
ghost use Rattle.uci_tree.specs.Slots.{sections_of};

use crate::draft_section::DraftSection;
use crate::options::Options;
use crate::{Section, TreeError, anonymous_name};
use plane_io::{Memory, Text};
use std::alloc::Global;
use std::collections::BTreeMap;
use uci_text::Cmd;

/// The sections of a package while its commands are read, with the place of the first section of
/// each name, and the place of the section that the latest `config` named.
#[derive(Drop)]
pub struct Sections {
    sections: Vec<DraftSection>,
    places: BTreeMap<Text, usize>,
    current: Option<usize>,
}

impl Sections {
    /// No sections.
    pub fn new(alloc: Global) -> Sections
        ensures indexed { IsIndexed result }
        ensures none { draft_of result ≡ fold.nothing }
    {
        Sections {
            sections: Vec::new(alloc),
            places: BTreeMap::new(alloc),
            current: None,
        }
    }

    /// Gives the sections, each with the options that are there.
    pub fn finish(self, alloc: Global) -> Result<Vec<Section>, Memory>
        ensures { IfOk result (λ finished. finished.items ≡ sections_of self.sections.items) }
    {
        let Sections { sections, .. } = self;
        let mut finished = Vec::new(alloc);
        for section in sections {
            finished.push(section.finish(alloc)?)?;
        }
        Ok(finished)
    }

    /// Does what the command says.
    pub fn take(&mut self, alloc: Global, command: Cmd) -> Result<(), TreeError>
        requires { IsIndexed self.old }
        ensures indexed { OnOk result (IsIndexed self.new) }
        ensures made { OnOk result
            (fold.after (draft_of self.old) command ≡ Ok (draft_of self.new)) }
        ensures refused { IfErr result (IsLack (fold.after (draft_of self.old) command)) }
    {
        match command {
            Cmd::Package { .. } => Ok(()),
            Cmd::Config { kind, name, .. } => Ok(self.config(alloc, kind, name)?),
            Cmd::Item { line, name, value } => self.option(line, name, value),
            Cmd::ListItem { line, name, value } => self.item(alloc, line, name, value),
        }
    }

    fn config(&mut self, alloc: Global, kind: Text, name: Option<Text>) -> Result<(), Memory>
        requires { IsIndexed self.old }
        ensures indexed { OnOk result (IsIndexed self.new) }
        ensures made { OnOk result
            (draft_of self.new ≡ fold.configured (draft_of self.old) kind name) }
    {
        let Some(name) = name else {
            let name = anonymous_name(alloc, self.sections.len() as u64 + 1, kind.as_bytes())?;
            return self.add(alloc, name, true, kind);
        };
        let Some(place) = self.places.get(&name).copied() else {
            return self.add(alloc, name, false, kind);
        };
        self.reopen(place, kind);
        Ok(())
    }

    fn add(&mut self, alloc: Global, name: Text, anonymous: bool, kind: Text) -> Result<(), Memory>
        requires { IsIndexed self.old }
        ensures indexed { OnOk result (IsIndexed self.new) }
        ensures made { OnOk result
            (draft_of self.new ≡ fold.added (draft_of self.old) name anonymous kind) }
    {
        let place = self.sections.len();
        note(&mut self.places, &name, place)?;
        self.sections.push(DraftSection {
            name,
            anonymous,
            kind,
            options: Options::new(alloc),
        })?;
        self.current = Some(place);
        Ok(())
    }

    fn reopen(&mut self, place: usize, kind: Text)
        requires indexed { IsIndexed self.old }
        requires within { place < length self.old.sections.items }
        ensures indexed { IsIndexed self.new }
        ensures made { draft_of self.new ≡ fold.reopened (draft_of self.old) place kind }
    {
        let section = &mut self.sections[place];
        section.kind = kind;
        self.current = Some(place);
    }

    fn option(&mut self, line: u32, name: Text, value: Text) -> Result<(), TreeError>
        requires { IsIndexed self.old }
        ensures indexed { OnOk result (IsIndexed self.new) }
        ensures made { OnOk result
            (fold.with_options (draft_of self.old) line (fold.with_option name value)
            ≡ Ok (draft_of self.new)) }
        ensures refused { IfErr result
            (IsLack (fold.with_options (draft_of self.old) line (fold.with_option name value))) }
    {
        let Some(place) = self.current else {
            return Err(TreeError::NoSection { line });
        };
        let section = &mut self.sections[place];
        Ok(section.options.set(name, value)?)
    }

    fn item(&mut self, alloc: Global, line: u32, name: Text, item: Text) -> Result<(), TreeError>
        requires { IsIndexed self.old }
        ensures indexed { OnOk result (IsIndexed self.new) }
        ensures made { OnOk result
            (fold.with_options (draft_of self.old) line (fold.with_item name item)
            ≡ Ok (draft_of self.new)) }
        ensures refused { IfErr result
            (IsLack (fold.with_options (draft_of self.old) line (fold.with_item name item))) }
    {
        let Some(place) = self.current else {
            return Err(TreeError::NoSection { line });
        };
        let section = &mut self.sections[place];
        Ok(section.options.append(alloc, name, item)?)
    }
}

/// Notes the place of a name that has none.
fn note(places: &mut BTreeMap<Text, usize>, name: &Text, place: usize) -> Result<(), Memory>
    ensures { OnOk result (HasNoted places.old places.new name.now place) }
{
    if places.contains_key(name) {
        return Ok(());
    }
    let _none = places.insert(name.copy()?, place)?;
    Ok(())
}

//! The commands of a text behind the sections of a package.
ghost use Rattle.std.specs.Prelude.{◌≡◌, ◌<◌, ◌-◌, ◌^◌, length, Some, Ok, OnOk, IfOk, IfErr};
ghost use Rattle.uci_tree.specs.Fold as fold;
ghost use Rattle.uci_tree.specs.Index.{IsLack};
ghost use Rattle.uci_tool.specs.Answers.{Answers};
ghost use Rattle.uci_tool.specs.Merging as spec;

use crate::Stop;
use crate::stop::{stop_of_text, stop_of_tree};
use plane_io::{Items, Memory, Text};
use std::alloc::Global;
use std::mem;
use uci_text::{Cmd, read_commands};
use uci_tree::{
    Opt, Package, Section, TreeError, Value, anonymous_name, named_place, option_place,
};

/// A package while commands are put behind its own: its sections, how many were added, and the
/// place of the section that the latest `config` named.
#[derive(Drop)]
struct Merge {
    sections: Vec<Section>,
    made: u64,
    current: Option<usize>,
}

/// The package with the commands of a text behind its own.
pub fn merge_text(alloc: Global, package: Package, input: &[u8]) -> Result<Package, Stop>
    requires { length input.now < 2 ^ 32 - 1 }
    ensures { Answers result (spec.merged «package» input.now) }
{
    match read_commands(alloc, input) {
        Ok(commands) => merge_commands(alloc, package, commands.into_vec()),
        Err(error) => Err(stop_of_text(error)),
    }
}

fn merge_commands(alloc: Global, package: Package, commands: Vec<Cmd>) -> Result<Package, Stop>
    ensures { Answers result (spec.merged_with «package» (Ok commands.items)) }
{
    let Package {
        name,
        sections,
        made,
    } = package;
    let merge = Merge {
        sections: sections.into_vec(),
        made,
        current: None,
    };
    match merge.with_all(alloc, commands) {
        Ok(merge) => Ok(Package {
            name,
            sections: Items::from_vec(merge.sections),
            made: merge.made,
        }),
        Err(error) => Err(stop_of_tree(error)),
    }
}

impl Merge {
    /// Takes commands one after another.
    fn with_all(self, alloc: Global, commands: Vec<Cmd>) -> Result<Merge, TreeError>
        requires { spec.IsWithin self }
        ensures done { IfOk result (λ merge.
            fold.after_all (spec.draft_of self) commands.items ≡ Ok (spec.draft_of merge)) }
        ensures refused { IfErr result
            (IsLack (fold.after_all (spec.draft_of self) commands.items)) }
    {
        let mut merge = self;
        for command in commands {
            merge.take(alloc, command)?;
        }
        Ok(merge)
    }

    /// Does what the command says.
    fn take(&mut self, alloc: Global, command: Cmd) -> Result<(), TreeError>
        requires { spec.IsWithin self.old }
        ensures within { OnOk result (spec.IsWithin self.new) }
        ensures done { OnOk result
            (fold.after (spec.draft_of self.old) command ≡ Ok (spec.draft_of self.new)) }
        ensures refused { IfErr result (IsLack (fold.after (spec.draft_of self.old) command)) }
    {
        match command {
            Cmd::Package { .. } => Ok(()),
            Cmd::Config { kind, name, .. } => Ok(self.config(alloc, kind, name)?),
            Cmd::Item { line, name, value } => self.option(alloc, line, name, value),
            Cmd::ListItem { line, name, value } => self.item(alloc, line, name, value),
        }
    }

    fn config(&mut self, alloc: Global, kind: Text, name: Option<Text>) -> Result<(), Memory>
        requires { spec.IsWithin self.old }
        ensures within { OnOk result (spec.IsWithin self.new) }
        ensures done { OnOk result
            (spec.draft_of self.new ≡ fold.configured (spec.draft_of self.old) kind name) }
    {
        let Some(name) = name else {
            // So many sections are more than memory holds.
            let Some(ordinal) = self.made.checked_add(1) else {
                return Err(Memory);
            };
            let name = anonymous_name(alloc, ordinal, kind.as_bytes())?;
            return self.add(alloc, name, true, kind);
        };
        match named_place(self.sections.as_slice(), name.as_bytes()) {
            Some(place) => {
                self.reopen(place, kind);
                Ok(())
            }
            None => self.add(alloc, name, false, kind),
        }
    }

    fn add(&mut self, alloc: Global, name: Text, anonymous: bool, kind: Text) -> Result<(), Memory>
        requires { spec.IsWithin self.old }
        ensures within { OnOk result (spec.IsWithin self.new) }
        ensures done { OnOk result
            (spec.draft_of self.new ≡ fold.added (spec.draft_of self.old) name anonymous kind) }
    {
        let Some(made) = self.made.checked_add(1) else {
            return Err(Memory);
        };
        let place = self.sections.len();
        self.sections.push(Section {
            name,
            anonymous,
            kind,
            options: Items::new(alloc),
        })?;
        self.made = made;
        self.current = Some(place);
        Ok(())
    }

    fn reopen(&mut self, place: usize, kind: Text)
        requires { place < length self.old.sections.items }
        ensures within { spec.IsWithin self.new }
        ensures done { spec.draft_of self.new ≡ fold.reopened (spec.draft_of self.old) place kind }
    {
        let section = &mut self.sections[place];
        section.kind = kind;
        self.current = Some(place);
    }

    fn option(&mut self, alloc: Global, line: u32, name: Text, value: Text) -> Result<(), TreeError>
        requires { spec.IsWithin self.old }
        ensures within { OnOk result (spec.IsWithin self.new) }
        ensures done { OnOk result
            (fold.with_options (spec.draft_of self.old) line (fold.with_option name value)
            ≡ Ok (spec.draft_of self.new)) }
        ensures refused { IfErr result (IsLack
            (fold.with_options (spec.draft_of self.old) line (fold.with_option name value))) }
    {
        let Some(place) = self.current else {
            return Err(TreeError::NoSection { line });
        };
        let section = &mut self.sections[place];
        let mut options = mem::replace(&mut section.options, Items::new(alloc)).into_vec();
        let done = set_option(&mut options, name, value);
        section.options = Items::from_vec(options);
        Ok(done?)
    }

    fn item(&mut self, alloc: Global, line: u32, name: Text, item: Text) -> Result<(), TreeError>
        requires { spec.IsWithin self.old }
        ensures within { OnOk result (spec.IsWithin self.new) }
        ensures done { OnOk result
            (fold.with_options (spec.draft_of self.old) line (fold.with_item name item)
            ≡ Ok (spec.draft_of self.new)) }
        ensures refused { IfErr result
            (IsLack (fold.with_options (spec.draft_of self.old) line (fold.with_item name item))) }
    {
        let Some(place) = self.current else {
            return Err(TreeError::NoSection { line });
        };
        let section = &mut self.sections[place];
        let mut options = mem::replace(&mut section.options, Items::new(alloc)).into_vec();
        let done = add_item(alloc, &mut options, name, item);
        section.options = Items::from_vec(options);
        Ok(done?)
    }
}

/// Gives an option a value at its place, or adds it at the end. An empty value removes it.
fn set_option(options: &mut Vec<Opt>, name: Text, value: Text) -> Result<(), Memory>
    ensures { OnOk result (options.new.items ≡ fold.with_option name value options.old.items) }
{
    if value.as_bytes().is_empty() {
        drop_option(options, &name);
        return Ok(());
    }
    put_value(options, name, Value::One(value))
}

/// Drops the option of this name, where it is there.
fn drop_option(options: &mut Vec<Opt>, name: &Text)
    ensures { options.new.items ≡ fold.without name.now options.old.items }
{
    let Some(place) = option_place(options.as_slice(), name.as_bytes()) else {
        return;
    };
    let _gone = options.remove(place);
}

fn put_value(options: &mut Vec<Opt>, name: Text, value: Value) -> Result<(), Memory>
    ensures { OnOk result
        (options.new.items ≡ fold.put name (λ before. value) options.old.items) }
{
    let Some(place) = option_place(options.as_slice(), name.as_bytes()) else {
        options.push(Opt { name, value })?;
        return Ok(());
    };
    options[place].value = value;
    Ok(())
}

/// Adds an item to a list, makes an option the first item of one, or begins one.
fn add_item(alloc: Global, options: &mut Vec<Opt>, name: Text, item: Text) -> Result<(), Memory>
    ensures { OnOk result (options.new.items ≡ fold.with_item name item options.old.items) }
{
    let Some(place) = option_place(options.as_slice(), name.as_bytes()) else {
        let mut items = Items::new(alloc);
        items.push(item)?;
        let value = Value::Many(items);
        options.push(Opt { name, value })?;
        return Ok(());
    };
    append_to(alloc, &mut options[place].value, item)
}

fn append_to(alloc: Global, value: &mut Value, item: Text) -> Result<(), Memory>
    ensures { OnOk result (value.new ≡ fold.appended item (Some value.old)) }
{
    let before = mem::replace(value, Value::Many(Items::new(alloc)));
    let items = items_with(alloc, before, item)?;
    *value = Value::Many(items);
    Ok(())
}

/// The items of a value, and one behind them.
fn items_with(alloc: Global, value: Value, item: Text) -> Result<Items<Text>, Memory>
    ensures { IfOk result (λ items. Value.Many items ≡ fold.appended item (Some value)) }
{
    match value {
        Value::Many(items) => {
            let mut items = items;
            items.push(item)?;
            Ok(items)
        }
        Value::One(first) => {
            let mut items = Items::new(alloc);
            items.push(first)?;
            items.push(item)?;
            Ok(items)
        }
    }
}

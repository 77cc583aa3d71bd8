ghost use Rattle.std.specs.Prelude.{◌≡◌, Ok, OnOk, IfOk, IfErr};
ghost use Rattle.std.specs.Option.{option_copied};
ghost use Rattle.rpc_rules.specs.Status.{IsStatusOf};
ghost use Rattle.rpc_rules.specs.Plan as spec;

use crate::rpc_error::{BAD_ARGUMENT, RpcError};
use crate::told::{option_of, section_of};
use blob_codec::{Attr, Blob};
use plane_io::{Items, Memory, Text};
use rpc_session::text_of;
use std::alloc::Global;
use uci_delta::{Change, Delta, apply};
use uci_tree::{Package, Section};

/// Changes that a call is to stage, tried one after another on what its holder sees.
#[derive(Drop)]
pub struct Plan {
    /// What the holder sees of the package once they are staged.
    pub tree: Package,
    /// The changes in their order.
    pub deltas: Items<Delta>,
    /// What the call tells then.
    pub told: sqlite_items::Items<Attr>,
}

impl Plan {
    /// Nothing is to be staged yet, and nothing is told.
    pub(crate) fn start(alloc: Global, tree: Package) -> Plan
        ensures { result ≡ spec.start tree }
    {
        Plan {
            tree,
            deltas: Items::new(alloc),
            told: sqlite_items::Items::new(alloc),
        }
    }

    /// Takes a change, where the package does.
    #[tactic(auto, using(crate::proofs::StatusLemmas::take_refused))]
    pub(crate) fn take(&mut self, alloc: Global, delta: Delta) -> Result<(), RpcError>
        ensures done { OnOk result (spec.taken delta self.old ≡ Ok self.new) }
        ensures refused { IfErr result (IsStatusOf (spec.taken delta self.old)) }
    {
        match apply(alloc, &mut self.tree, &delta) {
            Ok(()) => {}
            Err(error) => return Err(RpcError::from(error)),
        }
        self.deltas.push(delta)?;
        Ok(())
    }

    /// Takes values by option, in their order.
    #[tactic(auto, using(crate::proofs::StatusLemmas::status_then))]
    pub(crate) fn take_values(
        &mut self,
        alloc: Global,
        name: &[u8],
        section: &[u8],
        attrs: &[Attr],
    ) -> Result<(), RpcError>
        ensures done { OnOk result
            (spec.values_taken name.now section.now attrs.now self.old ≡ Ok self.new) }
        ensures refused { IfErr result
            (IsStatusOf (spec.values_taken name.now section.now attrs.now self.old)) }
    {
        for attr in attrs {
            match self.take_value(alloc, name, section, attr) {
                Ok(()) => {}
                Err(error) => return Err(error),
            }
        }
        Ok(())
    }

    /// A text is set, an array makes a list.
    fn take_value(
        &mut self,
        alloc: Global,
        name: &[u8],
        section: &[u8],
        attr: &Attr,
    ) -> Result<(), RpcError>
        ensures done { OnOk result
            (spec.value_taken name.now section.now attr.now self.old ≡ Ok self.new) }
        ensures refused { IfErr result
            (IsStatusOf (spec.value_taken name.now section.now attr.now self.old)) }
    {
        let option = attr.name.as_bytes();
        match &attr.value {
            Blob::Str(text) => {
                let change = Change::Set(text.copy()?);
                self.take(alloc, delta_of(alloc, name, section, Some(option), change)?)
            }
            Blob::Array(items) => self.take_list(alloc, name, section, option, items.as_slice()),
            Blob::Unspec | Blob::Table(_) => Err(RpcError::Status(BAD_ARGUMENT)),
            Blob::I64(_) | Blob::I32(_) | Blob::I16(_) | Blob::I8(_) => {
                Err(RpcError::Status(BAD_ARGUMENT))
            }
        }
    }

    /// The option goes where it is there, and then the items come one by one.
    #[tactic(auto, using(crate::proofs::StatusLemmas::status_then))]
    fn take_list(
        &mut self,
        alloc: Global,
        name: &[u8],
        section: &[u8],
        option: &[u8],
        items: &[Attr],
    ) -> Result<(), RpcError>
        ensures done { OnOk result
            (spec.list_taken name.now section.now option.now items.now self.old ≡ Ok self.new) }
        ensures refused { IfErr result
            (IsStatusOf (spec.list_taken name.now section.now option.now items.now self.old)) }
    {
        match self.take_away(alloc, name, section, option) {
            Ok(()) => self.take_items(alloc, name, section, option, items),
            Err(error) => Err(error),
        }
    }

    #[tactic(auto, using(crate::proofs::StatusLemmas::status_then))]
    fn take_items(
        &mut self,
        alloc: Global,
        name: &[u8],
        section: &[u8],
        option: &[u8],
        items: &[Attr],
    ) -> Result<(), RpcError>
        ensures done { OnOk result
            (spec.items_taken name.now section.now option.now items.now self.old ≡ Ok self.new) }
        ensures refused { IfErr result
            (IsStatusOf (spec.items_taken name.now section.now option.now items.now self.old)) }
    {
        for item in items {
            match self.take_item(alloc, name, section, option, text_of(&item.value)) {
                Ok(()) => {}
                Err(error) => return Err(error),
            }
        }
        Ok(())
    }

    fn take_item(
        &mut self,
        alloc: Global,
        name: &[u8],
        section: &[u8],
        option: &[u8],
        text: Option<&[u8]>,
    ) -> Result<(), RpcError>
        ensures done { OnOk result (spec.item_taken name.now section.now option.now
            (option_copied text.entry) self.old ≡ Ok self.new) }
        ensures refused { IfErr result (IsStatusOf
            (spec.item_taken name.now section.now option.now (option_copied text.entry) self.old)) }
    {
        let Some(text) = text else {
            return Err(RpcError::Status(BAD_ARGUMENT));
        };
        let change = Change::ListAdd(Text::from_bytes(alloc, text)?);
        self.take(alloc, delta_of(alloc, name, section, Some(option), change)?)
    }

    /// An option that is there goes.
    fn take_away(
        &mut self,
        alloc: Global,
        name: &[u8],
        section: &[u8],
        option: &[u8],
    ) -> Result<(), RpcError>
        ensures done { OnOk result
            (spec.option_gone name.now section.now option.now self.old ≡ Ok self.new) }
        ensures refused { IfErr result
            (IsStatusOf (spec.option_gone name.now section.now option.now self.old)) }
    {
        if !has_option(section_of(self.tree.sections.as_slice(), section), option) {
            return Ok(());
        }
        self.take(
            alloc,
            delta_of(alloc, name, section, Some(option), Change::Remove)?,
        )
    }
}

fn has_option(section: Option<&Section>, option: &[u8]) -> bool
    ensures { result ≡ spec.has_option option.now (option_copied section.entry) }
{
    let Some(section) = section else {
        return false;
    };
    let Some(_) = option_of(section.options.as_slice(), option) else {
        return false;
    };
    true
}

/// A change of a section or an option of a package.
pub(crate) fn delta_of(
    alloc: Global,
    name: &[u8],
    section: &[u8],
    option: Option<&[u8]>,
    change: Change,
) -> Result<Delta, Memory>
    ensures { IfOk result (λ delta. delta
        ≡ spec.delta_of name.now section.now (option_copied option.entry) change) }
{
    Ok(Delta {
        package: Text::from_bytes(alloc, name)?,
        section: Text::from_bytes(alloc, section)?,
        option: option_text(alloc, option)?,
        change,
    })
}

fn option_text(alloc: Global, option: Option<&[u8]>) -> Result<Option<Text>, Memory>
    ensures { IfOk result (λ text. text ≡ option_copied option.entry) }
{
    let Some(option) = option else {
        return Ok(None);
    };
    Ok(Some(Text::from_bytes(alloc, option)?))
}

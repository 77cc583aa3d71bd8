ghost use Rattle.std.specs.Prelude.{◌≡◌, IfOk};

use plane_io::{Items, Memory, Text};
use std::alloc::Global;
use uci_tree::{Opt, Value};

/// The same items, in memory of their own.
pub fn copy_items<T: Copy>(alloc: Global, items: &[T]) -> Result<Items<T>, Memory>
    ensures { IfOk result (λ copies. copies ≡ items.now) }
{
    Ok(Items::from_vec(Vec::from_slice(alloc, items)?))
}

/// The same options, in memory of their own.
pub fn copy_options(alloc: Global, options: &[Opt]) -> Result<Items<Opt>, Memory>
    ensures { IfOk result (λ copies. copies ≡ options.now) }
{
    let mut copies = Items::new(alloc);
    for option in options {
        copies.push(copy_option(alloc, option)?)?;
    }
    Ok(copies)
}

/// The same option, in memory of its own.
pub fn copy_option(alloc: Global, option: &Opt) -> Result<Opt, Memory>
    ensures { IfOk result (λ copy. copy ≡ option.now) }
{
    Ok(Opt {
        name: option.name.copy()?,
        value: copy_value(alloc, &option.value)?,
    })
}

fn copy_value(alloc: Global, value: &Value) -> Result<Value, Memory>
    ensures { IfOk result (λ copy. copy ≡ value.now) }
{
    match value {
        Value::One(text) => Ok(Value::One(text.copy()?)),
        Value::Many(items) => Ok(Value::Many(copy_texts(alloc, items.as_slice())?)),
    }
}

fn copy_texts(alloc: Global, texts: &[Text]) -> Result<Items<Text>, Memory>
    ensures { IfOk result (λ copies. copies ≡ texts.now) }
{
    let mut copies = Items::new(alloc);
    for text in texts {
        copies.push(text.copy()?)?;
    }
    Ok(copies)
}

/// The same text where there is one, in memory of its own.
pub fn copy_text(text: &Option<Text>) -> Result<Option<Text>, Memory>
    ensures { IfOk result (λ copy. copy ≡ text.now) }
{
    match text {
        Some(text) => Ok(Some(text.copy()?)),
        None => Ok(None),
    }
}

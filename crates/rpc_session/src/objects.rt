ghost use Rattle.std.specs.Prelude.{◌≡◌, Some, None, IfSome, IfNone, IfOk, OnOk};
ghost use Rattle.rpc_session.specs.Grant.{with};
ghost use Rattle.rpc_session.specs.Objects as spec;

use crate::Grant;
use crate::arguments::{array_of, text_of};
use crate::grant::holds;
use blob_codec::{Attr, Blob};
use plane_io::{Items, Memory};
use std::alloc::Global;

/// The object and the function of a value that is an array of two texts.
fn pair_of(value: &Blob) -> Option<(&[u8], &[u8])>
    ensures some { IfSome result (λ pair. spec.pair_of value.now ≡ Some (pair.0.now, pair.1.now)) }
    ensures none { IfNone result (spec.pair_of value.now ≡ None) }
{
    let Some(items) = array_of(value) else {
        return None;
    };
    let [object, function] = items else {
        return None;
    };
    let Some(object) = text_of(&object.value) else {
        return None;
    };
    let Some(function) = text_of(&function.value) else {
        return None;
    };
    Some((object, function))
}

/// Whether each item is a pair.
pub(crate) fn are_pairs(items: &[Attr]) -> bool
    ensures { result ≡ spec.are_pairs items.now }
{
    for item in items {
        let Some(_) = pair_of(&item.value) else {
            return false;
        };
    }
    true
}

/// Whether the grant is one of the scope and a pair.
pub(crate) fn is_told(scope: &[u8], items: &[Attr], grant: &Grant) -> bool
    ensures { result ≡ spec.is_told scope.now items.now grant.now }
{
    grant.scope.as_bytes() == scope && has_pair(items, grant)
}

/// Whether one of the pairs is that of the grant.
fn has_pair(items: &[Attr], grant: &Grant) -> bool
    ensures { result ≡ spec.has_pair items.now grant.now }
{
    for item in items {
        if is_pair_of(grant, &item.value) {
            return true;
        }
    }
    false
}

fn is_pair_of(grant: &Grant, value: &Blob) -> bool
    ensures { result ≡ spec.is_pair_of grant.now (spec.pair_of value.now) }
{
    let Some((object, function)) = pair_of(value) else {
        return false;
    };
    grant.object.as_bytes() == object && grant.function.as_bytes() == function
}

/// The grants and those of the scope with each pair, in memory of their own.
pub(crate) fn with_pairs(
    alloc: Global,
    grants: &[Grant],
    scope: &[u8],
    items: &[Attr],
) -> Result<Items<Grant>, Memory>
    ensures { IfOk result (λ made. made ≡ spec.with_pairs grants.now scope.now items.now) }
{
    let mut made = copy_grants(alloc, grants)?;
    for item in items {
        if let Some((object, function)) = pair_of(&item.value) {
            add(&mut made, Grant::of(alloc, scope, object, function)?)?;
        }
    }
    Ok(made)
}

fn add(grants: &mut Items<Grant>, grant: Grant) -> Result<(), Memory>
    ensures { OnOk result (grants.new ≡ with grant grants.old) }
{
    if !holds(grants.as_slice(), &grant) {
        grants.push(grant)?;
    }
    Ok(())
}

fn copy_grants(alloc: Global, grants: &[Grant]) -> Result<Items<Grant>, Memory>
    ensures { IfOk result (λ copies. copies ≡ grants.now) }
{
    let mut copies = Items::new(alloc);
    for grant in grants {
        copies.push(grant.copy()?)?;
    }
    Ok(copies)
}

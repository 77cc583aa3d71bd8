ghost use Rattle.std.specs.Prelude.{◌≡◌, ◌++◌, ◌∷◌, [], List, ℕ, IfOk, IfSome, OnOk, false, map};
ghost use Rattle.std.specs.Prelude.{filter};
ghost use Rattle.std.specs.Option.{option_copied, option_to_list};
ghost use Rattle.plane_words.specs.InOrder.{ordered};
ghost use Rattle.plane_words.specs.Pattern.{fits_front};
ghost use Rattle.ubus_table.specs.declared.rows.Object.{Object as ObjectRow};
ghost use Rattle.ubus_table.specs.Asked as spec;
ghost use Rattle.ubus_table.specs.Table.{same_text};
ghost use Rattle.ubus_state.specs.Paths.{has_path};
ghost use Rattle.ubus_send.specs.Fits.{fits};
ghost use Rattle.ubus_send.specs.Out.{out_of};
ghost use Rattle.ubus_state.specs.State.{table_of};

use plane_io::{Items, Memory, Text};
use std::alloc::Global;
use ubus_acl::fits_front;
use ubus_frames::Frame;
use ubus_send::{Outgoing, description, one_frame, pong, put_frame, refusal, send_with_data};
use ubus_state::Bus;
use ubus_table::Object;

/// What a PING comes to.
pub fn ping(bus: &Bus, client: u32, request: &Frame) -> Result<Items<Outgoing>, Memory>
    ensures { IfOk result (λ out.
        out ≡ out_of (spec.pinged fits (table_of bus.now) client request.now).sent) }
{
    let frames = one_frame(bus.alloc, pong(bus.alloc, request)?)?;
    let mut out = Items::new(bus.alloc);
    send_with_data(&mut out, client, request, frames)?;
    Ok(out)
}

/// What a LOOKUP comes to.
#[tactic(auto, using(crate::proofs::AskedLemmas::asked_or_not))]
pub fn look_up(bus: &Bus, client: u32, request: &Frame) -> Result<Items<Outgoing>, Memory>
    ensures { IfOk result (λ out.
        out ≡ out_of (spec.looked_up fits (table_of bus.now) client request.now).sent) }
{
    let told = descriptions(bus, request)?;
    if told.is_empty() {
        return refusal(bus.alloc, client, request, 4);
    }
    let mut out = Items::new(bus.alloc);
    send_with_data(&mut out, client, request, told)?;
    Ok(out)
}

/// What is told of the objects that are asked for, by rising path.
fn descriptions(bus: &Bus, request: &Frame) -> Result<Vec<Frame>, Memory>
    ensures { IfOk result (λ told. told.items ≡ map (spec.description request.now)
        (spec.asked_for (table_of bus.now) request.now.path)) }
{
    let mut told = Vec::new(bus.alloc);
    describe_clients(bus, &mut told, request)?;
    describe(bus.alloc, &mut told, request, bus.own.local())?;
    Ok(told)
}

/// Adds what is told of clients' objects, where nothing was told. Of a single path no other object
/// is looked at.
fn describe_clients(bus: &Bus, told: &mut Vec<Frame>, request: &Frame) -> Result<(), Memory>
    ensures { told.old.items ≡ [] → OnOk result (told.new.items ≡ map (spec.description request.now)
        (ordered spec.by_path
        (filter (spec.is_asked request.now.path) (table_of bus.now).objects))) }
{
    match single(&request.path) {
        Some(path) => describe_found(bus.alloc, told, request, bus.objects.find_of_path(path)),
        None => describe(bus.alloc, told, request, &bus.objects.rows),
    }
}

/// The path that is asked for, where it is a single one.
fn single(pattern: &Option<Text>) -> Option<&Text>
    ensures { IfSome result (λ path. (object : ObjectRow)
        → spec.is_asked pattern.now object ≡ has_path path.now object) }
{
    match pattern {
        Some(pattern) => if_single(pattern),
        None => None,
    }
}

/// The pattern, where it fits itself alone.
fn if_single(pattern: &Text) -> Option<&Text>
    ensures { IfSome result (λ path. (object : ObjectRow)
        → spec.fits_path pattern.now object.path ≡ has_path path.now object) }
{
    if ends_with_star(pattern.as_bytes()) {
        return None;
    }
    Some(pattern)
}

/// Whether the last byte is `*`; if not, the pattern fits itself alone.
fn ends_with_star(pattern: &[u8]) -> bool
    ensures { result ≡ false → (text : List ℕ)
        → fits_front pattern.now text ≡ same_text pattern.now text }
{
    match pattern.split_last() {
        Some((last, _front)) => *last == b'*',
        None => false,
    }
}

/// Adds what is told of an object that was found, where nothing was told.
fn describe_found(
    alloc: Global,
    told: &mut Vec<Frame>,
    request: &Frame,
    object: Option<&Object>,
) -> Result<(), Memory>
    ensures { told.old.items ≡ [] → OnOk result (told.new.items ≡ map (spec.description request.now)
        (ordered spec.by_path (filter (spec.is_asked request.now.path)
        (option_to_list (option_copied object.entry))))) }
{
    match object {
        Some(object) => describe_one(alloc, told, request, object),
        None => Ok(()),
    }
}

/// Adds what is told of objects that stand before those that were told.
fn describe(
    alloc: Global,
    told: &mut Vec<Frame>,
    request: &Frame,
    objects: &[Object],
) -> Result<(), Memory>
    ensures { (later : List ObjectRow) → told.old.items ≡ map (spec.description request.now)
        (ordered spec.by_path (filter (spec.is_asked request.now.path) later))
        → OnOk result (told.new.items ≡ map (spec.description request.now)
        (ordered spec.by_path (filter (spec.is_asked request.now.path) (objects.now ++ later)))) }
{
    for place in (0..objects.len()).rev() {
        describe_one(alloc, told, request, &objects[place])?;
    }
    Ok(())
}

#[tactic(auto, using(crate::proofs::AskedLemmas::told_in_order))]
fn describe_one(
    alloc: Global,
    told: &mut Vec<Frame>,
    request: &Frame,
    object: &Object,
) -> Result<(), Memory>
    ensures { (later : List ObjectRow) → told.old.items ≡ map (spec.description request.now)
        (ordered spec.by_path (filter (spec.is_asked request.now.path) later))
        → OnOk result (told.new.items ≡ map (spec.description request.now)
        (ordered spec.by_path (filter (spec.is_asked request.now.path) (object.now ∷ later)))) }
{
    if !is_asked(&request.path, object) {
        return Ok(());
    }
    put_frame(told, description(alloc, request, object)?)
}

fn is_asked(pattern: &Option<Text>, object: &Object) -> bool
    ensures { result ≡ spec.is_asked pattern.now object.now }
{
    let Some(path) = &object.path else {
        return false;
    };
    match pattern {
        Some(pattern) => fits_front(pattern.as_bytes(), path.as_bytes()),
        None => true,
    }
}

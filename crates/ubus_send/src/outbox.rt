ghost use Rattle.std.specs.Prelude.{◌≡◌, ◌++◌, [], ◌∷◌, OnOk, IfOk, if◌then◌else◌};
ghost use Rattle.std.specs.List.{flat_map, list_all};
ghost use Rattle.ubus_table.specs.Frames.{where_fits, with_data, answer, to_owner};
ghost use Rattle.ubus_send.specs.Fits.{fits};
ghost use Rattle.ubus_send.specs.Out.{out_of};

use crate::fitting::does_fit;
use crate::status_reply;
use plane_io::{Items, Memory};
use std::alloc::Global;
use ubus_frames::Frame;

/// A frame, and the client to which it goes.
#[derive(Drop)]
pub struct Outgoing {
    pub client: u32,
    pub frame: Frame,
}

/// Sends the frame where it fits.
pub fn send_if_fits(out: &mut Items<Outgoing>, client: u32, frame: Frame) -> Result<(), Memory>
    ensures { OnOk result (out.new ≡ out.old ++ out_of (where_fits fits client frame)) }
{
    if does_fit(&frame) {
        out.push(Outgoing { client, frame })?;
    }
    Ok(())
}

/// A frame to the owner of an object, where it fits.
pub fn send_to(out: &mut Items<Outgoing>, owner: Option<u32>, frame: Frame) -> Result<(), Memory>
    ensures { OnOk result (out.new ≡ out.old ++ out_of (to_owner fits owner frame)) }
{
    match owner {
        Some(owner) => send_if_fits(out, owner, frame),
        None => Ok(()),
    }
}

/// Sends the frames that fit.
#[tactic(auto, using(crate::proofs::OutLemmas::out_more))]
fn send_fitting(out: &mut Items<Outgoing>, client: u32, frames: Vec<Frame>) -> Result<(), Memory>
    ensures { OnOk result
        (out.new ≡ out.old ++ out_of (flat_map (where_fits fits client) frames.items)) }
{
    for frame in frames {
        send_if_fits(out, client, frame)?;
    }
    Ok(())
}

/// A STATUS for a client's own request.
pub fn send_answer(
    out: &mut Items<Outgoing>,
    client: u32,
    request: &Frame,
    code: u32,
) -> Result<(), Memory>
    ensures { OnOk result
        (out.new ≡ out.old ++ out_of (answer client request.now code ∷ [])) }
{
    out.push(Outgoing {
        client,
        frame: status_reply(request, code),
    })
}

/// A STATUS for a client's own request, alone.
pub fn answered(
    alloc: Global,
    client: u32,
    request: &Frame,
    code: u32,
) -> Result<Items<Outgoing>, Memory>
    ensures { IfOk result (λ out. out ≡ out_of (answer client request.now code ∷ [])) }
{
    let mut out = Items::new(alloc);
    send_answer(&mut out, client, request, code)?;
    Ok(out)
}

fn all_fit(frames: &[Frame]) -> bool
    ensures { result ≡ list_all fits frames.now }
{
    frames.iter().all(|frame| does_fit(frame))
}

fn code_of(frames: &[Frame]) -> u32
    ensures { result ≡ (if list_all fits frames.now then 0 else 9) }
{
    if all_fit(frames) { 0 } else { 9 }
}

/// DATA frames, where they fit, and then STATUS 0, which is 9 where one was left out.
#[tactic(auto, using(crate::proofs::OutLemmas::out_more))]
pub fn send_with_data(
    out: &mut Items<Outgoing>,
    client: u32,
    request: &Frame,
    frames: Vec<Frame>,
) -> Result<(), Memory>
    ensures { OnOk result
        (out.new ≡ out.old ++ out_of (with_data fits client request.now frames.items)) }
{
    let code = code_of(&frames);
    send_fitting(out, client, frames)?;
    send_answer(out, client, request, code)
}

/// A list of one frame.
pub fn one_frame(alloc: Global, frame: Frame) -> Result<Vec<Frame>, Memory>
    ensures { IfOk result (λ frames. frames.items ≡ frame ∷ []) }
{
    let mut frames = Vec::new(alloc);
    frames.push(frame)?;
    Ok(frames)
}

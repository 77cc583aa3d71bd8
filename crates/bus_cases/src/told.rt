use blob_codec::json_string;
use bus_words::{KINDS, put_frame, put_json};
use std::alloc::Global;
use std::fmt::Write;
use ubus_frames::Frame;
use ubus_send::Outgoing;
use ubus_table::LocalCall;

/// Puts a line for each frame that is sent.
pub(crate) fn put_sent(
    alloc: Global,
    is_short: bool,
    sent: &[Outgoing],
    out: &mut Vec<u8>,
) -> anyhow::Result<()> {
    for one in sent {
        if is_short {
            put_short(alloc, one.client, &one.frame, out)?;
        } else {
            let head = format!(in alloc; "to {} ", one.client)?;
            out.extend_from_slice(head.as_bytes())?;
            put_frame(alloc, out, &one.frame)?;
            out.push(b'\n')?;
        }
    }
    Ok(())
}

/// Puts to whom a frame goes, its kind and its status.
fn put_short(alloc: Global, client: u32, frame: &Frame, out: &mut Vec<u8>) -> anyhow::Result<()> {
    let mut told = String::new(alloc);
    let kind = KINDS.get(usize::from(frame.kind)).copied().unwrap_or("?");
    write!(told, "{client} {kind}")?;
    if let Some(status) = frame.status {
        write!(told, " {status}")?;
    }
    told.push('\n')?;
    out.extend_from_slice(told.as_bytes())?;
    Ok(())
}

/// Puts a line for a call that is handed out to a local object.
pub(crate) fn put_call(alloc: Global, call: &LocalCall, out: &mut Vec<u8>) -> anyhow::Result<()> {
    let method = json_string(alloc, call.method.as_bytes())?;
    let mut told = String::new(alloc);
    write!(
        told,
        "call of {} {}: {} {method} ",
        call.caller, call.seq, call.object
    )?;
    out.extend_from_slice(told.as_bytes())?;
    put_json(alloc, out, call.args.as_slice())?;
    if call.no_reply {
        out.extend_from_slice(b" no_reply")?;
    }
    out.push(b'\n')?;
    Ok(())
}

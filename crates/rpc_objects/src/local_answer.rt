ghost use Rattle.std.specs.Prelude.{◌≡◌, IfOk};
ghost use Rattle.rpc_objects.specs.LocalAnswer as spec;

use blob_codec::{Attr, Blob};
use plane_io::{Memory, Text};
use rpc_session::Grant;
use sqlite_items::Items;
use std::alloc::Global;

/// The status of a call that is denied (libubus).
const PERMISSION_DENIED: u32 = 6;

/// What a local object answers to a call.
#[derive(Drop)]
pub struct LocalAnswer {
    /// 0, or why the call was not carried out (the statuses of libubus).
    pub status: u32,
    pub payload: Option<Items<Attr>>,
}

impl LocalAnswer {
    /// The call was carried out, and tells this.
    pub fn told(payload: Items<Attr>) -> LocalAnswer
        ensures { result ≡ spec.told payload }
    {
        LocalAnswer {
            status: 0,
            payload: Some(payload),
        }
    }

    /// The call was not carried out, with this status.
    pub fn refused(status: u32) -> LocalAnswer
        ensures { result ≡ spec.refused status }
    {
        LocalAnswer {
            status,
            payload: None,
        }
    }

    /// The call was not carried out, since the caller lacks this grant.
    ///
    /// # Errors
    ///
    /// Want of memory.
    pub fn denied(alloc: Global, grant: &Grant) -> Result<LocalAnswer, Memory>
        ensures { IfOk result (λ answer. answer ≡ spec.denied grant.now) }
    {
        Ok(LocalAnswer {
            status: PERMISSION_DENIED,
            payload: Some(denied_payload(alloc, grant)?),
        })
    }
}

fn denied_payload(alloc: Global, grant: &Grant) -> Result<Items<Attr>, Memory>
    ensures { IfOk result (λ payload. payload ≡ spec.denied_payload grant.now) }
{
    let mut parts = Items::new(alloc);
    parts.push(text_attr(alloc, b"function", grant.function.as_bytes())?)?;
    parts.push(text_attr(alloc, b"object", grant.object.as_bytes())?)?;
    parts.push(text_attr(alloc, b"scope", grant.scope.as_bytes())?)?;
    let mut payload = Items::new(alloc);
    payload.push(Attr {
        name: Text::from_bytes(alloc, b"denied")?,
        value: Blob::Table(parts),
    })?;
    Ok(payload)
}

fn text_attr(alloc: Global, name: &[u8], text: &[u8]) -> Result<Attr, Memory>
    ensures { IfOk result (λ attr. attr ≡ spec.text_attr name.now text.now) }
{
    Ok(Attr {
        name: Text::from_bytes(alloc, name)?,
        value: Blob::Str(Text::from_bytes(alloc, text)?),
    })
}

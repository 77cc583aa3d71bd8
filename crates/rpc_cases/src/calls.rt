use crate::bench::Bench;
use crate::desk::Left;
use crate::grants::{WORD, id_of};
use blob_codec::{Attr, Blob};
use bus_words::{attributes_of, put_attributes, put_json};
use plane_io::Text;
use rpc_rules::RpcError;
use rpc_session::{Grant, SessionError, id_text};
use rpc_uci::Reply;
use sqlite_items::Items;
use std::alloc::Global;

/// A call of an object.
#[derive(Drop)]
pub(crate) struct Call<'a> {
    now: u64,
    object: &'a str,
    method: &'a str,
    args: Items<Attr>,
}

/// The call `SECOND WHO OBJECT METHOD ARGUMENTS`.
pub(crate) fn call_of<'a>(alloc: Global, line: &'a str, input: &[u8]) -> anyhow::Result<Call<'a>> {
    let mut words = line.splitn(5, ' ');
    let (Some(now), Some(who), Some(object), Some(method)) = (
        words.next(),
        words.next(),
        words.next(),
        words.next(),
    ) else {
        return Err(anyhow::anyhow!("no call"));
    };
    let json = match words.next() {
        Some(json) => json,
        None if input.is_empty() => "{}",
        None => str::from_utf8(input)?,
    };
    let mut args = attributes_of(alloc, json)?;
    if who != "-" {
        args.push(Attr {
            name: Text::from_bytes(alloc, b"ubus_rpc_session")?,
            value: Blob::Str(id_text(alloc, id_of(who)?)?),
        })?;
    }
    Ok(Call {
        now: now.parse()?,
        object,
        method,
        args,
    })
}

/// Puts the values as a JSON text, or in the order in which they stand.
fn put_values(
    alloc: Global,
    in_order: bool,
    attrs: &[Attr],
    out: &mut Vec<u8>,
) -> anyhow::Result<()> {
    if in_order {
        put_attributes(out, attrs)?;
    } else {
        put_json(alloc, out, attrs)?;
    }
    out.push(b'\n')?;
    Ok(())
}

impl Bench {
    /// Makes a call of an object.
    pub(crate) fn call(
        &mut self,
        line: &str,
        in_order: bool,
        input: &[u8],
        out: &mut Vec<u8>,
    ) -> anyhow::Result<()> {
        let call = call_of(self.alloc, line, input)?;
        match call.object {
            "session" => self.session(&call, in_order, out),
            "uci" => self.uci(&call, in_order, out),
            _ => Err(anyhow::anyhow!("no such object")),
        }
    }

    fn session(
        &mut self,
        call: &Call<'_>,
        in_order: bool,
        out: &mut Vec<u8>,
    ) -> anyhow::Result<()> {
        if self.sessions.next_number() >= 1 << 63 {
            return Err(anyhow::anyhow!("no number is left for a session"));
        }
        let served = self.sessions.serve(
            call.method.as_bytes(),
            call.args.as_slice(),
            call.now,
            WORD,
        );
        match served {
            Ok(answer) => put_values(self.alloc, in_order, answer.as_slice(), out),
            Err(SessionError::Memory) => Err(SessionError::Memory.into()),
            Err(error) => {
                let told = format!(in self.alloc; "error {} {error}\n", error.number())?;
                out.extend_from_slice(told.as_bytes())?;
                Ok(())
            }
        }
    }

    fn uci(&mut self, call: &Call<'_>, in_order: bool, out: &mut Vec<u8>) -> anyhow::Result<()> {
        let Some(desk) = self.desk.take() else {
            out.extend_from_slice(b"not open\n")?;
            return Ok(());
        };
        let left = desk.call(
            self.alloc,
            &mut self.sessions,
            call.now,
            call.method.as_bytes(),
            call.args.as_slice(),
        )?;
        match left {
            Left::Open(desk, answer) => {
                self.desk = Some(desk);
                put_answer(self.alloc, in_order, answer, out)
            }
            Left::Failed(disks) => {
                self.disks = Some(disks);
                out.extend_from_slice(b"disk failed\n")?;
                Ok(())
            }
        }
    }
}

fn put_answer(
    alloc: Global,
    in_order: bool,
    answer: Result<Reply, RpcError>,
    out: &mut Vec<u8>,
) -> anyhow::Result<()> {
    match answer {
        Ok(reply) => {
            put_values(alloc, in_order, reply.payload.as_slice(), out)?;
            if reply.reload {
                out.extend_from_slice(b"reload\n")?;
            }
        }
        Err(RpcError::Status(status)) => {
            let told = format!(in alloc; "status {status}\n")?;
            out.extend_from_slice(told.as_bytes())?;
        }
        Err(RpcError::Denied(grant)) => put_denied(&grant, out)?,
        Err(error) => return Err(error.into()),
    }
    Ok(())
}

fn put_denied(grant: &Grant, out: &mut Vec<u8>) -> anyhow::Result<()> {
    out.extend_from_slice(b"denied ")?;
    out.extend_from_slice(grant.scope.as_bytes())?;
    out.push(b' ')?;
    out.extend_from_slice(grant.object.as_bytes())?;
    out.push(b' ')?;
    out.extend_from_slice(grant.function.as_bytes())?;
    out.push(b'\n')?;
    Ok(())
}

use crate::files::numbers_of;
use crate::show::{put_choice, put_error, put_line, put_number};
use plane_io::{Failed, InputError, MemSink, MemSource, Memory, Sink, Source, Text, read_to_end};
use plane_outside::{Clock, HubError, ListRandom, Random, SeededRandom, SetClock, never_falls};
use std::alloc::Global;
use std::cmp::Ordering;

/// How many bytes a read may ask for.
const MOST_BYTES: usize = 1 << 20;

/// A clock, sources of random words, a source and a sink.
#[derive(Drop)]
pub(crate) struct Devices {
    alloc: Global,
    clock: Option<SetClock>,
    list: Option<ListRandom>,
    seeded: Option<SeededRandom>,
    source: Option<MemSource>,
    sink: Option<MemSink>,
}

impl Devices {
    pub(crate) fn new(alloc: Global) -> Devices {
        Devices {
            alloc,
            clock: None,
            list: None,
            seeded: None,
            source: None,
            sink: None,
        }
    }

    /// A step on a device.
    pub(crate) fn step(
        &mut self,
        words: &[&str],
        input: &[u8],
        out: &mut Vec<u8>,
    ) -> anyhow::Result<()> {
        match words {
            ["clock", words @ ..] => self.clock(words, out),
            ["random", words @ ..] => self.random(words, out),
            ["source", words @ ..] => self.source(words, input, out),
            ["sink", words @ ..] => self.sink(words, input, out),
            ["text", "order", one, other] => order(self.alloc, one, other, out),
            ["text", "of", name] => error(self.alloc, name, out),
            _ => Err(anyhow::anyhow!("no such step")),
        }
    }

    fn clock(&mut self, words: &[&str], out: &mut Vec<u8>) -> anyhow::Result<()> {
        match (words, &mut self.clock) {
            (["now"], Some(clock)) => put_number(self.alloc, out, clock.now()),
            (["start", moments @ ..], _) => {
                let moments = numbers_of(self.alloc, moments)?;
                if !never_falls(&moments) {
                    return put_line(out, b"falls");
                }
                self.clock = Some(SetClock::new(moments));
                Ok(())
            }
            _ => Err(anyhow::anyhow!("no clock")),
        }
    }

    fn random(&mut self, words: &[&str], out: &mut Vec<u8>) -> anyhow::Result<()> {
        match words {
            ["start", numbers @ ..] => {
                self.list = Some(ListRandom::new(numbers_of(self.alloc, numbers)?));
                Ok(())
            }
            ["seed"] => {
                self.list = None;
                self.seeded = Some(SeededRandom::new([0; 32]));
                Ok(())
            }
            ["word"] => {
                let word = self.word()?;
                let line = format!(in self.alloc; "{word:016x}")?;
                put_line(out, line.as_bytes())
            }
            _ => Err(anyhow::anyhow!("no such step")),
        }
    }

    fn word(&mut self) -> anyhow::Result<u64> {
        match (&mut self.list, &mut self.seeded) {
            (Some(list), _) => Ok(list.word()),
            (None, Some(seeded)) => Ok(seeded.word()),
            (None, None) => Err(anyhow::anyhow!("no random words")),
        }
    }

    fn source(&mut self, words: &[&str], input: &[u8], out: &mut Vec<u8>) -> anyhow::Result<()> {
        match (words, &mut self.source) {
            (["start", numbers @ ..], _) => {
                let bytes = Vec::from_slice(self.alloc, input)?;
                let failing = numbers_of(self.alloc, numbers)?;
                self.source = Some(MemSource::new(bytes, failing));
                Ok(())
            }
            (["read", count], Some(source)) => { read(self.alloc, source, count.parse()?, out) }
            (["all", limit], Some(source)) => {
                match read_to_end(self.alloc, source, limit.parse()?) {
                    Ok(bytes) => put_line(out, &bytes),
                    Err(error) => {
                        let text = error.to_string(self.alloc)?;
                        put_error(self.alloc, out, error.number(), text.as_str())
                    }
                }
            }
            _ => Err(anyhow::anyhow!("no source")),
        }
    }

    fn sink(&mut self, words: &[&str], input: &[u8], out: &mut Vec<u8>) -> anyhow::Result<()> {
        match (words, &mut self.sink) {
            (["start", numbers @ ..], _) => {
                let failing = numbers_of(self.alloc, numbers)?;
                self.sink = Some(MemSink::new(self.alloc, failing));
                Ok(())
            }
            (["room", size], _) => {
                self.sink = Some(MemSink::with_room(self.alloc, size.parse()?)?);
                Ok(())
            }
            (["write"], Some(sink)) => {
                put_choice(out, sink.write(input).is_ok(), "ok", "failed")
            }
            (["bytes"], Some(sink)) => {
                out.extend_from_slice(sink.bytes())?;
                Ok(())
            }
            (["refused"], Some(sink)) => put_number(self.alloc, out, sink.refused()),
            _ => Err(anyhow::anyhow!("no sink")),
        }
    }
}

/// One read of a source.
fn read(
    alloc: Global,
    source: &mut MemSource,
    count: usize,
    out: &mut Vec<u8>,
) -> anyhow::Result<()> {
    if count == 0 || count > MOST_BYTES {
        return Err(anyhow::anyhow!("no such read"));
    }
    let mut bytes = vec![in alloc; 0u8; count]?;
    match source.read(&mut bytes) {
        Ok(count) => {
            bytes.truncate(count);
            put_line(out, &bytes)
        }
        Err(Failed) => put_line(out, b"failed"),
    }
}

/// How two texts are ordered, and each of them as its copy.
fn order(alloc: Global, one: &str, other: &str, out: &mut Vec<u8>) -> anyhow::Result<()> {
    let one = Text::from_bytes(alloc, one.as_bytes())?;
    let other = Text::from_bytes(alloc, other.as_bytes())?;
    if one.copy()? != one {
        return put_line(out, b"the copy differs");
    }
    put_line(
        out,
        match one.cmp(&other) {
            Ordering::Less => b"less",
            Ordering::Equal => b"equal",
            Ordering::Greater => b"greater",
        },
    )
}

/// The text of an error.
fn error(alloc: Global, name: &str, out: &mut Vec<u8>) -> anyhow::Result<()> {
    let text = match name {
        "failed" => Failed.to_string(alloc)?,
        "memory" => Memory.to_string(alloc)?,
        "read-failed" => InputError::ReadFailed.to_string(alloc)?,
        "too-long" => InputError::TooLong { limit: 9 }.to_string(alloc)?,
        "hub-failed" => HubError::Failed.to_string(alloc)?,
        _ => return Err(anyhow::anyhow!("no such error")),
    };
    put_line(out, text.as_bytes())
}

//! The stage of a case.
use crate::failing::{Device, Failing};
use crate::folder::{Folder, bytes_of};
use crate::lines::{
    gates_text, line_count, put_calls, put_changed, put_end, put_head, put_objects, put_tail,
};
use crate::pieces::Pieces;
use crate::ran::{Asked, Ran};
use crate::stops::{Images, Stops};
use crate::sweeps::Sweep;
use case_files::{Stage, words};
use plane_io::MemSink;
use std::alloc::Global;

/// The folders of a case, what its next run is given, and what the last one left.
#[derive(Drop)]
pub(crate) struct Bench {
    alloc: Global,
    folder: Folder,
    /// The folders before the last run.
    before: Folder,
    words: Vec<String>,
    moments: Vec<u64>,
    failing: Failing,
    ran: Option<Ran>,
    images: Images,
}

impl Stage for Bench {
    fn new(alloc: Global) -> anyhow::Result<Bench> {
        Ok(Bench {
            alloc,
            folder: Folder::new(alloc)?,
            before: Folder::new(alloc)?,
            words: Vec::new(alloc),
            moments: Vec::new(alloc),
            failing: Failing::new(alloc),
            ran: None,
            images: Images::new(alloc),
        })
    }

    fn step(&mut self, line: &str, input: &[u8], out: &mut Vec<u8>) -> anyhow::Result<()> {
        let list = words(self.alloc, line)?;
        let Some((kind, rest)) = list.as_slice().split_first() else {
            return Err(anyhow::anyhow!("a step without words"));
        };
        match *kind {
            "file" | "staged" | "word" | "words" | "image" | "look" => self.put(kind, rest, input),
            "plane" | "quietly" => self.run(kind, rest, input, out),
            "each" | "statuses" | "pieces" | "stops" => self.sweep(kind, rest, input, out),
            _ if !input.is_empty() => Err(anyhow::anyhow!("this step has no input")),
            "clock" | "failing" | "stopping" => self.prepare(kind, rest),
            "head" | "tail" | "lines" => self.show_output(kind, rest, out),
            "kernel" | "calls" | "objects" => self.show_kernel(kind, rest, out),
            _ => self.show_folder(kind, rest, out),
        }
    }
}

fn unknown() -> anyhow::Result<()> {
    Err(anyhow::anyhow!("no such step"))
}

impl Bench {
    /// Steps whose input is kept.
    fn put(&mut self, kind: &str, rest: &[&str], input: &[u8]) -> anyhow::Result<()> {
        match (kind, rest) {
            ("file", [name]) => self.folder.put_file(name, input),
            ("staged", [name]) => self.folder.put_staged(name, input),
            ("word", []) => {
                let word = String::from_str(self.alloc, str::from_utf8(input)?)?;
                self.words.push(word)?;
                Ok(())
            }
            ("words", []) => {
                for word in str::from_utf8(input)?.split_whitespace() {
                    self.words.push(String::from_str(self.alloc, word)?)?;
                }
                Ok(())
            }
            ("image", [name]) => self.images.push(name, input),
            ("look", [name, words @ ..]) => {
                let asked = Asked::new(self.alloc, words, input)?;
                self.images.push_look(name, asked)
            }
            _ => unknown(),
        }
    }

    /// Steps that prepare the next run.
    fn prepare(&mut self, kind: &str, rest: &[&str]) -> anyhow::Result<()> {
        match (kind, rest) {
            ("clock", [_, ..]) => {
                for word in rest {
                    self.moments.push(word.parse()?)?;
                }
                Ok(())
            }
            ("failing", [device, numbers @ ..]) => {
                let device = Device::read(device)?;
                for number in numbers {
                    self.failing.push(device, number.parse()?)?;
                }
                Ok(())
            }
            ("stopping", [calls]) => {
                self.failing.passed = Some(calls.parse()?);
                Ok(())
            }
            _ => unknown(),
        }
    }

    /// What the next run is given, which goes.
    fn asked(&mut self, rest: &[&str], input: &[u8]) -> anyhow::Result<Asked> {
        let mut asked = Asked::new(self.alloc, rest, input)?;
        for word in &self.words {
            asked.words.push(word.clone()?)?;
        }
        self.words = Vec::new(self.alloc);
        if self.moments.is_empty() {
            self.moments.push(100)?;
        }
        Ok(asked)
    }

    /// Steps that run the program.
    fn run(
        &mut self,
        kind: &str,
        rest: &[&str],
        input: &[u8],
        out: &mut Vec<u8>,
    ) -> anyhow::Result<()> {
        let asked = self.asked(rest, input)?;
        self.before = self.folder.copy()?;
        let ran = asked.change(self.alloc, &self.moments, &self.failing, &mut self.folder)?;
        self.moments = Vec::new(self.alloc);
        self.failing = Failing::new(self.alloc);
        if kind == "plane" {
            out.extend_from_slice(&ran.out)?;
        }
        put_end(self.alloc, &ran, out)?;
        self.ran = Some(ran);
        Ok(())
    }

    /// Steps that run the program often, over copies of the folders.
    fn sweep(
        &mut self,
        kind: &str,
        rest: &[&str],
        input: &[u8],
        out: &mut Vec<u8>,
    ) -> anyhow::Result<()> {
        match (kind, rest) {
            ("each", [device, more, words @ ..]) => {
                self.sweep_of(device, words, input)?
                    .each(more.parse()?, out)
            }
            ("statuses", [device, words @ ..]) => {
                self.sweep_of(device, words, input)?.statuses(out)
            }
            ("pieces", words) => self.pieces_of(words).cut(str::from_utf8(input)?, out),
            ("stops", [more, words @ ..]) => {
                let asked = Asked::new(self.alloc, words, input)?;
                Stops::new(self.alloc, &self.folder, &self.images).play(&asked, more.parse()?, out)
            }
            _ => unknown(),
        }
    }

    fn sweep_of(&self, device: &str, words: &[&str], input: &[u8]) -> anyhow::Result<Sweep<'_>> {
        Ok(Sweep {
            alloc: self.alloc,
            folder: &self.folder,
            asked: Asked::new(self.alloc, words, input)?,
            device: Device::read(device)?,
        })
    }

    fn pieces_of<'a>(&'a self, words: &'a [&'a str]) -> Pieces<'a> {
        Pieces {
            alloc: self.alloc,
            folder: &self.folder,
            words,
        }
    }

    fn last(&self) -> anyhow::Result<&Ran> {
        match &self.ran {
            Some(ran) => Ok(ran),
            None => Err(anyhow::anyhow!("nothing was run")),
        }
    }

    /// Steps that give parts of what the last run wrote.
    fn show_output(&self, kind: &str, rest: &[&str], out: &mut Vec<u8>) -> anyhow::Result<()> {
        let ran = self.last()?;
        match (kind, rest) {
            ("head", [count]) => put_head(&ran.out, count.parse()?, out),
            ("tail", [count]) => put_tail(&ran.out, count.parse()?, out),
            ("lines", []) => self.tell(line_count(&ran.out), "lines", out),
            _ => unknown(),
        }
    }

    fn tell(&self, count: usize, what: &str, out: &mut Vec<u8>) -> anyhow::Result<()> {
        let line = format!(in self.alloc; "{count} {what}\n")?;
        out.extend_from_slice(line.as_bytes())?;
        Ok(())
    }

    /// Steps that give what the kernel of the last run did and holds.
    fn show_kernel(&self, kind: &str, rest: &[&str], out: &mut Vec<u8>) -> anyhow::Result<()> {
        let ran = self.last()?;
        match (kind, rest) {
            ("kernel", []) => {
                self.tell(ran.calls.len(), "calls", out)?;
                self.tell(ran.objects.len(), "objects", out)
            }
            ("calls", []) => put_calls(self.alloc, &ran.calls, "", out),
            ("calls", [text]) => put_calls(self.alloc, &ran.calls, text, out),
            ("objects", []) => put_objects(self.alloc, &ran.objects, out),
            _ => unknown(),
        }
    }

    /// Steps that give what the folders have, and the end of a program that does not begin.
    fn show_folder(&self, kind: &str, rest: &[&str], out: &mut Vec<u8>) -> anyhow::Result<()> {
        match (kind, rest) {
            ("show", ["file", name]) => show(bytes_of(&self.folder.files, name), out),
            ("show", ["staged", name]) => show(bytes_of(&self.folder.staged, name), out),
            ("changed", []) => {
                put_changed(self.alloc, &self.before.files, &self.folder.files, out)
            }
            ("apply", []) => {
                let gates = bytes_of(&self.folder.files, ".plane-gates").unwrap_or(b"");
                out.extend_from_slice(gates_text(gates).as_bytes())?;
                out.push(b'\n')?;
                Ok(())
            }
            ("lack_memory", []) => self.lack_memory(out),
            _ => unknown(),
        }
    }

    fn lack_memory(&self, out: &mut Vec<u8>) -> anyhow::Result<()> {
        let mut err = MemSink::new(self.alloc, Vec::new(self.alloc));
        let status = plane_main::lack_memory(&mut err);
        let ran = Ran {
            out: Vec::new(self.alloc),
            err: Vec::from_slice(self.alloc, err.bytes())?,
            status,
            calls: Vec::new(self.alloc),
            objects: Vec::new(self.alloc),
        };
        put_end(self.alloc, &ran, out)
    }
}

/// Puts the bytes of a file behind `out`.
fn show(bytes: Option<&[u8]>, out: &mut Vec<u8>) -> anyhow::Result<()> {
    match bytes {
        Some(bytes) => Ok(out.extend_from_slice(bytes)?),
        None => Err(anyhow::anyhow!("no such file")),
    }
}

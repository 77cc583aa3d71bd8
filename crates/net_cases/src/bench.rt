use crate::history::play;
use crate::sweep::sweep;
use case_files::{Stage, words};
use std::alloc::Global;

/// Files by their names, and the numbers of the kernel's calls and events that fail.
#[derive(Drop)]
pub(crate) struct Bench {
    alloc: Global,
    files: Vec<(String, Vec<u8>)>,
    calls: Vec<u64>,
    events: Vec<u64>,
}

impl Stage for Bench {
    fn new(alloc: Global) -> anyhow::Result<Bench> {
        Ok(Bench {
            alloc,
            files: Vec::new(alloc),
            calls: Vec::new(alloc),
            events: Vec::new(alloc),
        })
    }

    fn step(&mut self, line: &str, input: &[u8], out: &mut Vec<u8>) -> anyhow::Result<()> {
        let words = words(self.alloc, line)?;
        match words.as_slice() {
            ["file", name] => {
                let name = String::from_str(self.alloc, name)?;
                self.files
                    .push((name, Vec::from_slice(self.alloc, input)?))?;
            }
            ["failing", "calls", numbers @ ..] => self.calls = numbers_of(self.alloc, numbers)?,
            ["failing", "events", numbers @ ..] => self.events = numbers_of(self.alloc, numbers)?,
            ["play"] => self.play(str::from_utf8(input)?, out)?,
            ["wherever", kind, most] => {
                self.wherever(kind, most.parse()?, str::from_utf8(input)?, out)?;
            }
            _ => return Err(anyhow::anyhow!("no such step")),
        }
        Ok(())
    }
}

impl Bench {
    /// The file of this name.
    pub(crate) fn file(&self, name: &str) -> anyhow::Result<&[u8]> {
        match self.files.iter().find(|(own, _)| own.as_str() == name) {
            Some((_, bytes)) => Ok(bytes.as_slice()),
            None => Err(anyhow::anyhow!("no such file")),
        }
    }

    fn play(&self, events: &str, out: &mut Vec<u8>) -> anyhow::Result<()> {
        let calls = Vec::from_slice(self.alloc, &self.calls)?;
        let failing = Vec::from_slice(self.alloc, &self.events)?;
        play(self.alloc, self, calls, failing, events, out)
    }

    fn wherever(
        &self,
        kind: &str,
        most: u64,
        events: &str,
        out: &mut Vec<u8>,
    ) -> anyhow::Result<()> {
        let is_call = match kind {
            "calls" => true,
            "events" => false,
            _ => return Err(anyhow::anyhow!("neither calls nor events")),
        };
        let same = sweep(self.alloc, self, is_call, most, events)?;
        let line = format!(in self.alloc; "{same} the same\n")?;
        out.extend_from_slice(line.as_bytes())?;
        Ok(())
    }
}

fn numbers_of(alloc: Global, words: &[&str]) -> anyhow::Result<Vec<u64>> {
    let mut numbers = Vec::new(alloc);
    for word in words {
        numbers.push(word.parse()?)?;
    }
    Ok(numbers)
}

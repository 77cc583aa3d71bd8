//! Runs in which each call of a device fails in turn.
use crate::failing::{Device, Failing};
use crate::folder::Folder;
use crate::lines::ending;
use crate::ran::{Asked, Ran};
use std::alloc::Global;

/// How many calls fail in turn at most.
const MOST: u64 = 1000;

/// A run of which calls fail, and the folders that it is over.
#[derive(Drop)]
pub(crate) struct Sweep<'a> {
    pub(crate) alloc: Global,
    pub(crate) folder: &'a Folder,
    pub(crate) asked: Asked,
    pub(crate) device: Device,
}

impl Sweep<'_> {
    /// The run in which no call fails.
    fn whole(&self) -> anyhow::Result<Ran> {
        self.asked
            .try_over(self.alloc, self.folder, &Failing::new(self.alloc))
    }

    /// The run in which this call fails.
    fn run(&self, number: u64) -> anyhow::Result<Ran> {
        let failing = Failing::one(self.alloc, self.device, number)?;
        self.asked.try_over(self.alloc, self.folder, &failing)
    }

    /// Puts a line for each way in which the runs end behind `out`, where there are more than so
    /// many calls.
    pub(crate) fn each(&self, more: u64, out: &mut Vec<u8>) -> anyhow::Result<()> {
        let whole = self.whole()?;
        let mut endings: Vec<String> = Vec::new(self.alloc);
        for number in 1..=MOST {
            let ran = self.run(number)?;
            if is_same(&whole, &ran) {
                return put_endings(&endings, more.saturating_add(1) < number, out);
            }
            let ending = ending(self.alloc, &whole, &ran)?;
            if !endings.iter().any(|other| other == &ending) {
                endings.push(ending)?;
            }
        }
        Err(anyhow::anyhow!("there is no end of the calls"))
    }

    /// Puts a line for each status behind `out`, with the numbers of the calls.
    pub(crate) fn statuses(&self, out: &mut Vec<u8>) -> anyhow::Result<()> {
        let whole = self.whole()?;
        let mut first = 1;
        let mut last = None;
        for number in 1..=MOST {
            let ran = self.run(number)?;
            let is_over = is_same(&whole, &ran);
            let status = if is_over { None } else { Some(ran.status) };
            if let Some(old) = last
                && (is_over || status != last)
            {
                let before = number.saturating_sub(1);
                let line = format!(in self.alloc; "{first} to {before}: status {old}\n")?;
                out.extend_from_slice(line.as_bytes())?;
                first = number;
            }
            if is_over {
                return Ok(());
            }
            last = status;
        }
        Err(anyhow::anyhow!("there is no end of the calls"))
    }
}

/// Whether two runs wrote and told the same, and ended with the same status.
fn is_same(one: &Ran, other: &Ran) -> bool {
    one.status == other.status && one.out == other.out && one.err == other.err
}

fn put_endings(endings: &[String], are_many: bool, out: &mut Vec<u8>) -> anyhow::Result<()> {
    if !are_many {
        return Err(anyhow::anyhow!("there are fewer calls"));
    }
    for ending in endings {
        out.extend_from_slice(ending.as_bytes())?;
        out.push(b'\n')?;
    }
    Ok(())
}

//! A run of the program.
use crate::failing::{Device, Failing};
use crate::folder::{Folder, disk, files_of};
use kern_memory::MemKernel;
use kern_model::{Call, Object};
use plane_disk::MemDisk;
use plane_io::{MemSink, MemSource};
use plane_main::plane;
use plane_outside::{MemHub, SeededRandom, SetClock, never_falls};
use std::alloc::Global;
use uci_store::have_same_packages;

/// The words and the input of a run.
#[derive(Drop)]
pub(crate) struct Asked {
    pub(crate) words: Vec<String>,
    pub(crate) input: Vec<u8>,
}

/// What a run left of its devices, and its status.
#[derive(Drop)]
pub(crate) struct Ran {
    pub(crate) out: Vec<u8>,
    pub(crate) err: Vec<u8>,
    pub(crate) status: u8,
    /// What the kernel did, and what it holds.
    pub(crate) calls: Vec<Call>,
    pub(crate) objects: Vec<Object>,
}

impl Asked {
    /// These words and this input.
    pub(crate) fn new(alloc: Global, words: &[&str], input: &[u8]) -> anyhow::Result<Asked> {
        let mut list = Vec::new(alloc);
        for word in words {
            list.push(String::from_str(alloc, word)?)?;
        }
        Ok(Asked {
            words: list,
            input: Vec::from_slice(alloc, input)?,
        })
    }

    /// Runs the program over a folder that stays as it is, at the moment 100.
    pub(crate) fn try_over(
        &self,
        alloc: Global,
        folder: &Folder,
        failing: &Failing,
    ) -> anyhow::Result<Ran> {
        let mut files = disk(
            alloc,
            &folder.files,
            failing.of(Device::Files)?,
            failing.passed,
        )?;
        self.run_over(alloc, &folder.staged, failing, &mut files)
    }

    /// The same, over a disk of packages.
    pub(crate) fn run_over(
        &self,
        alloc: Global,
        staged: &[plane_disk::MemFile],
        failing: &Failing,
        files: &mut MemDisk,
    ) -> anyhow::Result<Ran> {
        let mut staged = disk(alloc, staged, failing.of(Device::Staged)?, None)?;
        self.run(alloc, &[100], failing, files, &mut staged)
    }

    /// Runs the program over a folder, which has then what the run left of it.
    pub(crate) fn change(
        &self,
        alloc: Global,
        moments: &[u64],
        failing: &Failing,
        folder: &mut Folder,
    ) -> anyhow::Result<Ran> {
        let mut files = disk(
            alloc,
            &folder.files,
            failing.of(Device::Files)?,
            failing.passed,
        )?;
        let mut staged = disk(alloc, &folder.staged, failing.of(Device::Staged)?, None)?;
        let ran = self.run(alloc, moments, failing, &mut files, &mut staged)?;
        if failing.passed.is_none() {
            folder.files = files_of(alloc, &mut files)?;
            folder.staged = files_of(alloc, &mut staged)?;
        }
        Ok(ran)
    }

    /// Runs the program over two disks.
    fn run(
        &self,
        alloc: Global,
        moments: &[u64],
        failing: &Failing,
        files: &mut MemDisk,
        staged: &mut MemDisk,
    ) -> anyhow::Result<Ran> {
        let given = Given {
            input: Vec::from_slice(alloc, &self.input)?,
            reads: failing.of(Device::Input)?,
            writes: failing.of(Device::Out)?,
            errors: failing.of(Device::Err)?,
            calls: failing.of(Device::Apply)?,
            events: failing.of(Device::Environment)?,
            moments: Vec::from_slice(alloc, moments)?,
        };
        match carry_out(alloc, &self.words, given, files, staged) {
            Some(left) => left.ran(alloc),
            None => Err(anyhow::anyhow!("the clock falls, or the folders differ")),
        }
    }
}

/// What a run is given: its input, the numbers of the calls of each device that fail, and the
/// moments of its clock.
#[derive(Drop)]
struct Given {
    input: Vec<u8>,
    reads: Vec<u64>,
    writes: Vec<u64>,
    errors: Vec<u64>,
    calls: Vec<u64>,
    events: Vec<u64>,
    moments: Vec<u64>,
}

/// The devices that a run left, and its status.
#[derive(Drop)]
struct Left {
    out: MemSink,
    err: MemSink,
    kernel: MemKernel,
    status: u8,
}

impl Left {
    fn ran(&self, alloc: Global) -> anyhow::Result<Ran> {
        Ok(Ran {
            out: Vec::from_slice(alloc, self.out.bytes())?,
            err: Vec::from_slice(alloc, self.err.bytes())?,
            status: self.status,
            calls: Vec::from_slice(alloc, self.kernel.calls())?,
            objects: Vec::from_slice(alloc, self.kernel.objects())?,
        })
    }
}

/// Runs the program over two disks, where the clock does not fall and the disks have the same
/// packages.
fn carry_out(
    alloc: Global,
    words: &[String],
    given: Given,
    files: &mut MemDisk,
    staged: &mut MemDisk,
) -> Option<Left> {
    if !never_falls(&given.moments) || !have_same_packages(files, staged) {
        return None;
    }
    let mut input = MemSource::new(given.input, given.reads);
    let mut out = MemSink::new(alloc, given.writes);
    let mut err = MemSink::new(alloc, given.errors);
    let mut kernel = MemKernel::new(alloc, given.calls, given.events);
    let mut hub = MemHub::new(alloc, Vec::new(alloc), Vec::new(alloc));
    let mut clock = SetClock::new(given.moments);
    let mut random = SeededRandom::new([0; 32]);
    let status = plane(
        alloc,
        words,
        &mut input,
        &mut out,
        &mut err,
        files,
        staged,
        &mut kernel,
        &mut hub,
        &mut clock,
        &mut random,
    );
    Some(Left {
        out,
        err,
        kernel,
        status,
    })
}

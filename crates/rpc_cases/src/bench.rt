use crate::desk::{Desk, Disks};
use crate::disks::Folder;
use crate::grants::permits;
use case_files::{Stage, words};
use plane_io::Text;
use rpc_session::Sessions;
use std::alloc::Global;

/// Sessions, and the disks of the packages, on which a store may be open.
#[derive(Drop)]
pub(crate) struct Bench {
    pub(crate) alloc: Global,
    pub(crate) sessions: Sessions,
    pub(crate) folder: Folder,
    pub(crate) disks: Option<Disks>,
    pub(crate) desk: Option<Desk>,
    /// What the files of the disk of the packages had when they were kept.
    pub(crate) kept: Vec<Text>,
    /// What the files of each disk have that a crash may leave.
    pub(crate) left: Vec<Vec<Text>>,
}

impl Stage for Bench {
    fn new(alloc: Global) -> anyhow::Result<Bench> {
        Ok(Bench {
            alloc,
            sessions: Sessions::new(alloc)?,
            folder: Folder::new(alloc),
            disks: None,
            desk: None,
            kept: Vec::new(alloc),
            left: Vec::new(alloc),
        })
    }

    fn step(&mut self, line: &str, input: &[u8], out: &mut Vec<u8>) -> anyhow::Result<()> {
        let words = words(self.alloc, line)?;
        match words.as_slice() {
            ["lines"] => self.lines(input, out),
            ["left", now] => self.each_left(now.parse()?, input, out),
            ["packages"] => self.folder.read_packages(self.alloc, input),
            ["staged", name] => self.folder.stage(self.alloc, name, input),
            ["disks"] => self.make_disks(None),
            ["disks", "fuse", calls] => self.make_disks(Some(calls.parse()?)),
            ["open", now] => self.open(now.parse()?, out),
            ["keep"] => self.keep(),
            ["crash"] => self.crash(out),
            _ => self.line(line, input, out),
        }
    }
}

impl Bench {
    /// Plays each line of the input.
    pub(crate) fn lines(&mut self, input: &[u8], out: &mut Vec<u8>) -> anyhow::Result<()> {
        for line in str::from_utf8(input)?.lines() {
            self.line(line, b"", out)?;
        }
        Ok(())
    }

    /// Plays a call, or a step of the sessions.
    fn line(&mut self, line: &str, input: &[u8], out: &mut Vec<u8>) -> anyhow::Result<()> {
        if let Some(line) = line.strip_prefix("order ") {
            return self.call(line, true, input, out);
        }
        let words = words(self.alloc, line)?;
        match words.as_slice() {
            ["create", timeout, now, word] => self.create(timeout, now, word, out),
            ["grant", id, scope, object, function] => {
                self.grant(true, id, &[*scope, *object, *function], out)
            }
            ["revoke", id, scope, object, function] => {
                self.grant(false, id, &[*scope, *object, *function], out)
            }
            ["allowed", id, scope, object, function, now] => {
                self.allowed(id, &[*scope, *object, *function], now, out)
            }
            ["used", id, now] => self.used(id, now, out),
            ["destroy", id] => self.destroy(id, out),
            ["expired", now] => self.expired(now, out),
            ["permits", a, b, c, x, y, z] => {
                permits(self.alloc, &[*a, *b, *c], &[*x, *y, *z], out)
            }
            _ => self.call(line, false, input, out),
        }
    }
}

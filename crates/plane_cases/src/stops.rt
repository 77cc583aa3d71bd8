//! Runs that are stopped at each call of the disk of packages, and what is seen of the folders that
//! they leave.
use crate::failing::Failing;
use crate::folder::{Folder, disk};
use crate::lines::{ending, gates_text, push_lines, put_lines};
use crate::ran::{Asked, Ran};
use plane_disk::{MemDisk, MemFile};
use plane_io::Text;
use std::alloc::Global;
use std::collections::BTreeSet;
use std::fmt::Write;

/// How many calls the disk does at most before it is stopped.
const MOST: u64 = 1000;

/// A run over each folder that a stop leaves.
#[derive(Drop)]
pub(crate) struct Look {
    pub(crate) name: String,
    pub(crate) asked: Asked,
}

/// What a stop may leave of the files, and what then is run.
#[derive(Drop)]
pub(crate) struct Images {
    alloc: Global,
    /// Contents of a file of that name.
    contents: Vec<(String, Vec<u8>)>,
    looks: Vec<Look>,
}

impl Images {
    pub(crate) fn new(alloc: Global) -> Images {
        Images {
            alloc,
            contents: Vec::new(alloc),
            looks: Vec::new(alloc),
        }
    }

    /// One more of the contents of a file.
    pub(crate) fn push(&mut self, name: &str, bytes: &[u8]) -> anyhow::Result<()> {
        let bytes = Vec::from_slice(self.alloc, bytes)?;
        self.contents
            .push((String::from_str(self.alloc, name)?, bytes))?;
        Ok(())
    }

    pub(crate) fn push_look(&mut self, name: &str, asked: Asked) -> anyhow::Result<()> {
        let name = String::from_str(self.alloc, name)?;
        self.looks.push(Look { name, asked })?;
        Ok(())
    }

    /// Each list of contents of these files, in their order.
    fn lists(&self, files: &[MemFile]) -> anyhow::Result<Vec<Vec<Text>>> {
        let mut lists = Vec::new(self.alloc);
        lists.push(Vec::new(self.alloc))?;
        for file in files {
            let mut longer = Vec::new(self.alloc);
            for list in &lists {
                for (name, bytes) in &self.contents {
                    if name.as_bytes() == file.name.as_bytes() {
                        longer.push(self.with(list, bytes)?)?;
                    }
                }
            }
            lists = longer;
        }
        Ok(lists)
    }

    /// A list with one more text.
    fn with(&self, list: &[Text], bytes: &[u8]) -> anyhow::Result<Vec<Text>> {
        let mut longer = Vec::new(self.alloc);
        for text in list {
            longer.push(Text::from_bytes(self.alloc, text.as_bytes())?)?;
        }
        longer.push(Text::from_bytes(self.alloc, bytes)?)?;
        Ok(longer)
    }
}

/// The runs that are stopped, and what was told of them.
#[derive(Drop)]
pub(crate) struct Stops<'a> {
    alloc: Global,
    folder: &'a Folder,
    images: &'a Images,
    told: BTreeSet<String>,
    count: u64,
}

impl<'a> Stops<'a> {
    pub(crate) fn new(alloc: Global, folder: &'a Folder, images: &'a Images) -> Stops<'a> {
        Stops {
            alloc,
            folder,
            images,
            told: BTreeSet::new(alloc),
            count: 0,
        }
    }

    /// Puts a line for each way in which a run or a look ends behind `out`, where more than so many
    /// folders are left.
    pub(crate) fn play(
        &mut self,
        asked: &Asked,
        more: u64,
        out: &mut Vec<u8>,
    ) -> anyhow::Result<()> {
        let whole = asked.try_over(self.alloc, self.folder, &Failing::new(self.alloc))?;
        let lists = self.images.lists(&self.folder.files)?;
        for passed in 0..MOST {
            if self.stop(asked, &whole, passed, &lists)? {
                if self.count <= more {
                    return Err(anyhow::anyhow!("a stop leaves fewer folders"));
                }
                return put_lines(&self.told, out);
            }
        }
        Err(anyhow::anyhow!("the run does not end"))
    }

    /// Runs the program over a disk that does so many calls, and looks at what is left. Tells
    /// whether the run was done.
    fn stop(
        &mut self,
        asked: &Asked,
        whole: &Ran,
        passed: u64,
        lists: &[Vec<Text>],
    ) -> anyhow::Result<bool> {
        let mut files = disk(
            self.alloc,
            &self.folder.files,
            Vec::new(self.alloc),
            Some(passed),
        )?;
        let failing = Failing::new(self.alloc);
        let ran = asked.run_over(self.alloc, &self.folder.staged, &failing, &mut files)?;
        let is_done = ran.status == whole.status;
        let end = ending(self.alloc, whole, &ran)?;
        let kind = if is_done { "done" } else { "stopped" };
        self.told.insert(format!(in self.alloc; "{kind}: {end}")?)?;
        for list in lists {
            if files.is_image(list) {
                self.count = self.count.saturating_add(1);
                self.look(kind, list)?;
            }
        }
        Ok(is_done)
    }

    /// Looks at the folder with these files.
    fn look(&mut self, kind: &str, list: &[Text]) -> anyhow::Result<()> {
        let gates = list
            .first()
            .map_or("none", |gates| gates_text(gates.as_bytes()));
        for look in &self.images.looks {
            let mut files = self.disk_of(list)?;
            let failing = Failing::new(self.alloc);
            let ran = look
                .asked
                .run_over(self.alloc, &self.folder.staged, &failing, &mut files)?;
            let mut line = String::new(self.alloc);
            write!(
                line,
                "{kind}, {gates}, {}: status {}",
                look.name, ran.status
            )?;
            push_lines(&mut line, &ran.out, 0)?;
            self.told.insert(line)?;
        }
        Ok(())
    }

    /// A disk whose files have these bytes.
    fn disk_of(&self, list: &[Text]) -> anyhow::Result<MemDisk> {
        let mut files = Vec::new(self.alloc);
        for (file, text) in self.folder.files.iter().zip(list) {
            files.push(MemFile {
                name: Text::from_bytes(self.alloc, file.name.as_bytes())?,
                bytes: Text::from_bytes(self.alloc, text.as_bytes())?,
            })?;
        }
        disk(self.alloc, &files, Vec::new(self.alloc), None)
    }
}

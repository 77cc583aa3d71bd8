use crate::changes::{apply_all_of, apply_each, apply_one, read_changes, show_changes};
use crate::folder::Folder;
use crate::packages::{print, show_name, show_path};
use crate::show::{put_number, show_package};
use crate::texts::{read_text, take_package};
use crate::tool::run;
use case_files::Stage;
use std::alloc::Global;
use uci_delta::Delta;
use uci_tree::{Package, copy_package};

/// A package, changes of it, and a folder.
#[derive(Drop)]
pub(crate) struct Bench {
    alloc: Global,
    package: Option<Package>,
    deltas: Vec<Delta>,
    folder: Folder,
}

impl Stage for Bench {
    fn new(alloc: Global) -> anyhow::Result<Bench> {
        Ok(Bench {
            alloc,
            package: None,
            deltas: Vec::new(alloc),
            folder: Folder::new(alloc)?,
        })
    }

    fn step(&mut self, words: &str, input: &[u8], out: &mut Vec<u8>) -> anyhow::Result<()> {
        let words = case_files::words(self.alloc, words)?;
        match words.as_slice() {
            [kind @ ("lines" | "commands" | "quote")] => read_text(self.alloc, kind, input, out),
            ["anonymous", ordinal, kind] => show_name(self.alloc, ordinal, kind, out),
            ["package", name] => {
                self.package = take_package(self.alloc, name, input, out)?;
                Ok(())
            }
            ["deltas", name] => {
                self.deltas = read_changes(self.alloc, name, input, out)?;
                Ok(())
            }
            ["changes"] => show_changes(&self.deltas, out),
            ["file" | "staged" | "read" | "read-staged" | "fail", ..] => {
                self.folder.step(&words, input, out)
            }
            ["uci", words @ ..] => run(self.alloc, &mut self.folder, words, input, out),
            words => self.of_package(words, input, out),
        }
    }
}

impl Bench {
    /// A step on the package that is there.
    fn of_package(
        &mut self,
        words: &[&str],
        input: &[u8],
        out: &mut Vec<u8>,
    ) -> anyhow::Result<()> {
        let Some(package) = &mut self.package else {
            return Err(anyhow::anyhow!("no such step, or no package"));
        };
        match words {
            ["show"] => show_package(out, package),
            ["made"] => put_number(self.alloc, out, package.made),
            ["copy"] => {
                *package = copy_package(self.alloc, package)?;
                Ok(())
            }
            ["print", words @ ..] => print(self.alloc, package, words, out),
            ["path", path] => show_path(self.alloc, package, path, out),
            ["apply"] => apply_each(self.alloc, package, &self.deltas, out),
            ["apply-all"] => apply_all_of(self.alloc, package, &self.deltas),
            ["apply", kind, section] => {
                apply_one(self.alloc, package, kind, section, None, input, out)
            }
            ["apply", kind, section, option] => {
                apply_one(self.alloc, package, kind, section, Some(option), input, out)
            }
            _ => Err(anyhow::anyhow!("no such step")),
        }
    }
}

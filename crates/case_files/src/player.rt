use crate::body::Texts;
use crate::case::{Case, Step};
use crate::read::read_cases;
use std::alloc::Global;
use std::fmt::Write;
use std::process::ExitCode;
use std::rt::{Env, Files};
use std::{env, fs, io};

/// How many lines of what is wanted and of what came are shown where they differ.
const SHOWN: usize = 12;

/// What cases are played on: each case has one of its own.
pub trait Stage: Sized + Drop {
    /// A stage on which nothing was played.
    fn new(alloc: Global) -> anyhow::Result<Self>;

    /// Carries a step out: its words, and its input. Puts what it gives behind `out`. A step that
    /// the stage does not know, or whose words are off, is an error.
    fn step(&mut self, words: &str, input: &[u8], out: &mut Vec<u8>) -> anyhow::Result<()>;
}

/// Plays cases, and keeps what is told of them.
#[derive(Drop)]
struct Player {
    alloc: Global,
    /// The files that are texts.
    files: Texts,
    told: String,
    cases: usize,
    failed: usize,
}

impl Player {
    /// A player that has played nothing.
    fn new(alloc: Global) -> Player {
        Player {
            alloc,
            files: Texts::new(alloc),
            told: String::new(alloc),
            cases: 0,
            failed: 0,
        }
    }

    /// What is told: each difference and each fault, and how many cases there were.
    fn told(mut self) -> anyhow::Result<(String, bool)> {
        writeln!(self.told, "{} cases", self.cases)?;
        if self.failed > 0 {
            writeln!(self.told, "{} FAILED", self.failed)?;
        }
        let Player { told, failed, .. } = self;
        Ok((told, failed == 0))
    }

    /// Plays the cases of a file.
    fn play<S: Stage>(&mut self, file: &str, text: &str) -> anyhow::Result<()> {
        match read_cases(self.alloc, &self.files, text)? {
            Ok(cases) => {
                for case in &cases {
                    self.cases = self.cases.saturating_add(1);
                    self.case::<S>(file, case)?;
                }
            }
            Err(fault) => {
                self.fail();
                writeln!(self.told, "{file}: {fault}")?;
            }
        }
        Ok(())
    }

    fn fail(&mut self) {
        self.failed = self.failed.saturating_add(1);
    }

    /// Plays a case up to its first step that differs.
    fn case<S: Stage>(&mut self, file: &str, case: &Case) -> anyhow::Result<()> {
        let mut stage = S::new(self.alloc)?;
        for step in &case.steps {
            let mut given = Vec::new(self.alloc);
            let done = stage.step(&step.words, &step.input, &mut given);
            if done.is_ok() && given.as_slice() == step.wanted.as_slice() {
                continue;
            }
            self.fail();
            writeln!(self.told, "{file}:{}: {}", step.line, case.name)?;
            if let Err(error) = done {
                writeln!(self.told, "the step is not played: {error}")?;
            }
            return self.differ(step, &given);
        }
        Ok(())
    }

    /// Tells what was wanted of a step and what came, from their first line that differs on.
    fn differ(&mut self, step: &Step, given: &[u8]) -> anyhow::Result<()> {
        let wanted = step.wanted.as_slice();
        let same = wanted
            .split_inclusive(|byte| *byte == b'\n')
            .zip(given.split_inclusive(|byte| *byte == b'\n'))
            .take_while(|(one, other)| one == other)
            .count();
        writeln!(
            self.told,
            "wanted, from line {} on:",
            same.saturating_add(1)
        )?;
        self.show(wanted, same)?;
        writeln!(self.told, "came:")?;
        self.show(given, same)
    }

    /// Shows lines of a body, as a case has them, from this one on.
    fn show(&mut self, body: &[u8], first: usize) -> anyhow::Result<()> {
        for line in body
            .split_inclusive(|byte| *byte == b'\n')
            .skip(first)
            .take(SHOWN)
        {
            self.show_line(line)?;
        }
        Ok(())
    }

    fn show_line(&mut self, line: &[u8]) -> anyhow::Result<()> {
        let (text, mark) = match line.strip_suffix(b"\n") {
            Some(text) => (text, "= "),
            None => (line, "=. "),
        };
        match str::from_utf8(text) {
            Ok(text) if text.chars().all(|sign| sign == '\t' || sign >= ' ') => {
                writeln!(self.told, "{mark}{text}")?;
            }
            _ => {
                let digits = hex::encode(self.alloc, line)?;
                writeln!(self.told, "=x {digits}")?;
            }
        }
        Ok(())
    }
}

/// Plays the files of cases that the command line names, and prints what is told. A file whose name
/// does not end in `.cases` is a text that the files behind it may name. The status is 0 where
/// nothing differs.
///
/// # Errors
///
/// Where a file is not read, a line is not written, or memory lacks.
pub fn play_files<S: Stage>(rt: &HostRuntime) -> anyhow::Result<ExitCode> {
    let mut player = Player::new(rt.alloc());
    for file in env::args(rt)?.skip(1) {
        let text = fs::read_to_string(rt, file.as_str())?;
        if file.ends_with(".cases") {
            player.play::<S>(&file, &text)?;
        } else if player.files.add(&file, text.as_bytes())?.is_none() {
            player.fail();
            writeln!(player.told, "{file}: a second file of this name")?;
        }
    }
    let (told, is_well) = player.told()?;
    print!(rt; "{told}")?;
    Ok(ExitCode::from(u8::from(!is_well)))
}

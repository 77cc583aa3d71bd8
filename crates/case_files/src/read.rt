use crate::body::Texts;
use crate::case::{Case, Step};
use std::alloc::Global;
use thiserror::Error;

/// Why a file is no file of cases.
#[derive(Debug, Drop, Error)]
pub(crate) enum Fault {
    /// The first line that cannot stand where it stands, from 1 on.
    #[error("line {line}: {why}")]
    Line { line: usize, why: &'static str },
}

/// What the lines of a body belong to.
#[derive(Clone, Copy)]
enum Place {
    Nothing,
    Text,
    Case,
}

/// The lines that were read so far.
#[derive(Drop)]
struct Reader<'a> {
    alloc: Global,
    files: &'a Texts,
    texts: Texts,
    cases: Vec<Case>,
    place: Place,
}

/// The cases of a file, in their order, or its first fault. They may name texts of other files.
///
/// # Errors
///
/// Where memory lacks.
pub(crate) fn read_cases(
    alloc: Global,
    files: &Texts,
    text: &str,
) -> anyhow::Result<Result<Vec<Case>, Fault>> {
    let mut reader = Reader {
        alloc,
        files,
        texts: Texts::new(alloc),
        cases: Vec::new(alloc),
        place: Place::Nothing,
    };
    let mut number = 0usize;
    for line in text.lines() {
        number = number.saturating_add(1);
        if let Some(why) = reader.line(line, number)? {
            return Ok(Err(Fault::Line { line: number, why }));
        }
    }
    let Reader { cases, .. } = reader;
    match cases.iter().find(|case| case.steps.is_empty()) {
        Some(case) => Ok(Err(Fault::Line {
            line: case.line,
            why: "a case without steps",
        })),
        None => Ok(Ok(cases)),
    }
}

impl Reader<'_> {
    /// Takes a line, or tells why it cannot stand there.
    fn line(&mut self, line: &str, number: usize) -> anyhow::Result<Option<&'static str>> {
        if line.is_empty() {
            self.place = Place::Nothing;
            return Ok(None);
        }
        if line.starts_with('#') {
            return Ok(None);
        }
        if let Some(name) = line.strip_prefix("text ") {
            return self.text(name);
        }
        if let Some(name) = line.strip_prefix("case ") {
            return self.case(name, number);
        }
        match self.place {
            Place::Nothing => Ok(Some("a line of no case and no text")),
            Place::Text => self.text_line(line),
            Place::Case => self.case_line(line, number),
        }
    }

    fn text(&mut self, name: &str) -> anyhow::Result<Option<&'static str>> {
        self.place = Place::Text;
        Ok(match self.texts.begin(name)? {
            Some(()) => None,
            None => Some("a second text of this name"),
        })
    }

    fn case(&mut self, name: &str, line: usize) -> anyhow::Result<Option<&'static str>> {
        self.place = Place::Case;
        if self.cases.iter().any(|case| case.name.as_str() == name) {
            return Ok(Some("a second case of this name"));
        }
        self.cases.push(Case {
            name: String::from_str(self.alloc, name)?,
            line,
            steps: Vec::new(self.alloc),
        })?;
        Ok(None)
    }

    fn text_line(&mut self, line: &str) -> anyhow::Result<Option<&'static str>> {
        let Some(body) = line.strip_prefix('|') else {
            return Ok(Some("a line of no text"));
        };
        Ok(match self.texts.extend_last(self.files, body)? {
            Some(()) => None,
            None => Some("no such form of a line"),
        })
    }

    fn case_line(&mut self, line: &str, number: usize) -> anyhow::Result<Option<&'static str>> {
        let Reader {
            alloc,
            files,
            texts,
            cases,
            ..
        } = self;
        let Some(case) = cases.last_mut() else {
            return Ok(Some("a line of no case"));
        };
        if let Some(words) = line.strip_prefix("> ") {
            case.steps.push(Step {
                line: number,
                words: String::from_str(*alloc, words)?,
                input: Vec::new(*alloc),
                wanted: Vec::new(*alloc),
            })?;
            return Ok(None);
        }
        match case.steps.last_mut() {
            Some(step) => put_body(files, texts, step, line),
            None => Ok(Some("a line in front of the first step")),
        }
    }
}

/// Puts a line of input, or of what is wanted, into the step.
fn put_body(
    files: &Texts,
    texts: &Texts,
    step: &mut Step,
    line: &str,
) -> anyhow::Result<Option<&'static str>> {
    let put = if let Some(body) = line.strip_prefix('=') {
        texts.put_line(files, &mut step.wanted, body)?
    } else if let Some(body) = line.strip_prefix('|') {
        if !step.wanted.is_empty() {
            return Ok(Some("input behind what is wanted"));
        }
        texts.put_line(files, &mut step.input, body)?
    } else {
        return Ok(Some("no step, no input and nothing that is wanted"));
    };
    Ok(match put {
        Some(()) => None,
        None => Some("no such form of a line"),
    })
}

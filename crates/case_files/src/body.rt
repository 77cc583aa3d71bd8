use std::alloc::Global;
use std::fmt::Write;

/// How many bytes a line of a body may stand for, at most.
const LARGEST: usize = 1 << 28;

/// The texts of a file by their names.
#[derive(Drop)]
pub(crate) struct Texts {
    alloc: Global,
    texts: Vec<(String, Vec<u8>)>,
}

impl Texts {
    pub(crate) fn new(alloc: Global) -> Texts {
        Texts {
            alloc,
            texts: Vec::new(alloc),
        }
    }

    /// Names a text whose bytes come. Gives nothing where the name is taken.
    pub(crate) fn begin(&mut self, name: &str) -> anyhow::Result<Option<()>> {
        if self.get(name).is_some() {
            return Ok(None);
        }
        let name = String::from_str(self.alloc, name)?;
        self.texts.push((name, Vec::new(self.alloc)))?;
        Ok(Some(()))
    }

    fn get(&self, name: &str) -> Option<&[u8]> {
        self.texts
            .iter()
            .find(|(own, _)| own.as_str() == name)
            .map(|(_, bytes)| bytes.as_slice())
    }

    /// Names a text with these bytes. Gives nothing where the name is taken.
    pub(crate) fn add(&mut self, name: &str, bytes: &[u8]) -> anyhow::Result<Option<()>> {
        let begun = self.begin(name)?;
        if let (Some(()), Some((_, last))) = (begun, self.texts.last_mut()) {
            last.extend_from_slice(bytes)?;
        }
        Ok(begun)
    }

    /// Puts what a line of a body stands for behind the text that was named last.
    pub(crate) fn extend_last(&mut self, files: &Texts, line: &str) -> anyhow::Result<Option<()>> {
        let mut bytes = Vec::new(self.alloc);
        let read = self.put_line(files, &mut bytes, line)?;
        if let Some((_, last)) = self.texts.last_mut() {
            last.extend_from_slice(&bytes)?;
        }
        Ok(read)
    }

    /// Puts what a line of a body, behind its mark, stands for behind these bytes. A name is one of
    /// these texts or of a file. Gives nothing where it is no such line.
    pub(crate) fn put_line(
        &self,
        files: &Texts,
        bytes: &mut Vec<u8>,
        line: &str,
    ) -> anyhow::Result<Option<()>> {
        let Some((kind, text)) = line.split_once(' ') else {
            return Ok(match line {
                "" => Some(bytes.push(b'\n')?),
                _ => None,
            });
        };
        match kind {
            "" => {
                bytes.extend_from_slice(text.as_bytes())?;
                bytes.push(b'\n')?;
            }
            "." => bytes.extend_from_slice(text.as_bytes())?,
            "x" => match hex::decode(self.alloc, text) {
                Ok(digits) => bytes.extend_from_slice(&digits)?,
                Err(_) => return Ok(None),
            },
            "*" => return repeat(self.alloc, bytes, text),
            "<" => match self.get(text).or(files.get(text)) {
                Some(named) => bytes.extend_from_slice(named)?,
                None => return Ok(None),
            },
            _ => return Ok(None),
        }
        Ok(Some(()))
    }
}

/// Puts the text of `N TEXT` so many times behind these bytes, with the number of each in the place
/// of `{}`.
fn repeat(alloc: Global, bytes: &mut Vec<u8>, line: &str) -> anyhow::Result<Option<()>> {
    let Some((count, text)) = line.split_once(' ') else {
        return Ok(None);
    };
    let Ok(count) = count.parse::<usize>() else {
        return Ok(None);
    };
    if count > LARGEST / text.len().max(1) {
        return Ok(None);
    }
    for number in 0..count {
        put_once(alloc, bytes, text, number)?;
    }
    Ok(Some(()))
}

/// Puts a text, in which `{}` is this number and `\n` a newline, behind these bytes.
fn put_once(alloc: Global, bytes: &mut Vec<u8>, text: &str, number: usize) -> anyhow::Result<()> {
    let mut rest = text;
    for _ in 0..text.len() {
        let Some((front, behind)) = first_sign(rest) else {
            break;
        };
        bytes.extend_from_slice(front.as_bytes())?;
        rest = match behind.strip_prefix("{}") {
            Some(more) => {
                let mut digits = String::new(alloc);
                write!(digits, "{number}")?;
                bytes.extend_from_slice(digits.as_bytes())?;
                more
            }
            None => {
                bytes.push(b'\n')?;
                behind.strip_prefix("\\n").unwrap_or("")
            }
        };
    }
    bytes.extend_from_slice(rest.as_bytes())?;
    Ok(())
}

/// What stands in front of the first `{}` or `\n` of the text, and the text from there on.
fn first_sign(text: &str) -> Option<(&str, &str)> {
    let number = text.find("{}");
    let newline = text.find("\\n");
    let place = match (number, newline) {
        (Some(one), Some(other)) => one.min(other),
        (Some(one), None) | (None, Some(one)) => one,
        (None, None) => return None,
    };
    text.split_at_checked(place)
}

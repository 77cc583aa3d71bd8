//! The bytes of a client in two pieces, cut at each place.
use crate::failing::Failing;
use crate::folder::Folder;
use crate::lines::line_count;
use crate::ran::Asked;
use std::alloc::Global;

/// A script whose last line is `client K bytes HEX`: what stands before the digits, and the digits.
fn parts(script: &str) -> anyhow::Result<(&str, &str)> {
    let line = script.strip_suffix('\n').unwrap_or(script);
    match line.rsplit_once(' ') {
        Some((front, digits)) if front.ends_with(" bytes") && digits.len() % 2 == 0 => {
            Ok((front, digits))
        }
        _ => Err(anyhow::anyhow!("the last line has no bytes of a client")),
    }
}

/// The last line of a script that ends in the word `bytes`.
fn last_line(front: &str) -> &str {
    front.rsplit_once('\n').map_or(front, |(_, line)| line)
}

/// How many lines of this kind a text has.
fn count_of(text: &[u8], line: &[u8]) -> usize {
    text.split_inclusive(|byte| *byte == b'\n')
        .filter(|one| *one == line)
        .count()
}

/// How many lines the first piece is answered by, where the answers of both are that of the whole,
/// with one more `ok` behind the first.
fn lines_of_first(whole: &[u8], cut: &[u8]) -> Option<usize> {
    let same = whole
        .split_inclusive(|byte| *byte == b'\n')
        .zip(cut.split_inclusive(|byte| *byte == b'\n'))
        .take_while(|(one, other)| one == other)
        .count();
    let mut rest = cut.split_inclusive(|byte| *byte == b'\n').skip(same);
    if rest.next() != Some(b"ok\n".as_slice()) {
        return None;
    }
    let left = whole.split_inclusive(|byte| *byte == b'\n').skip(same);
    if left.eq(rest) { Some(same) } else { None }
}

/// What is sent for the two pieces of a cut: how many lines for each.
#[derive(Clone, Copy, PartialEq, Eq)]
struct Sent {
    first: usize,
    second: usize,
}

/// The runs of a script.
#[derive(Drop)]
pub(crate) struct Pieces<'a> {
    pub(crate) alloc: Global,
    pub(crate) folder: &'a Folder,
    pub(crate) words: &'a [&'a str],
}

impl Pieces<'_> {
    /// What a script prints.
    fn printed(&self, script: &str) -> anyhow::Result<Vec<u8>> {
        let asked = Asked::new(self.alloc, self.words, script.as_bytes())?;
        let ran = asked.try_over(self.alloc, self.folder, &Failing::new(self.alloc))?;
        if ran.status != 0 {
            return Err(anyhow::anyhow!("a line is refused"));
        }
        Ok(ran.out)
    }

    /// What is sent for the pieces of a cut.
    fn sent(&self, whole: &[u8], before: usize, cut: &[u8]) -> anyhow::Result<Sent> {
        let Some(same) = lines_of_first(whole, cut) else {
            return Err(anyhow::anyhow!("the pieces are answered otherwise"));
        };
        let all = line_count(whole).saturating_sub(1);
        Ok(Sent {
            first: same.min(all).saturating_sub(before),
            second: all.saturating_sub(same),
        })
    }

    /// Puts a line for the cuts at places that follow one another, for whose pieces as much is
    /// sent, behind `out`.
    pub(crate) fn cut(&self, script: &str, out: &mut Vec<u8>) -> anyhow::Result<()> {
        let (front, digits) = parts(script)?;
        let line = last_line(front);
        let before = front.strip_suffix(line).unwrap_or("");
        let whole = self.printed(script)?;
        let before = line_count(&self.printed(before)?);
        let mut last: Option<(usize, Sent)> = None;
        let places = digits.len() / 2;
        for place in 0..=places {
            let Some((one, other)) = digits.split_at_checked(place.saturating_mul(2)) else {
                return Err(anyhow::anyhow!("the digits are no text"));
            };
            let cut = format!(in self.alloc; "{front} '{one}'\n{line} '{other}'\n")?;
            let sent = self.sent(&whole, before, &self.printed(&cut)?)?;
            match last {
                Some((_, old)) if old == sent => {}
                Some((first, old)) => {
                    self.tell(first, place.saturating_sub(1), old, out)?;
                    last = Some((place, sent));
                }
                None => last = Some((place, sent)),
            }
        }
        match last {
            Some((first, old)) => self.tell(first, places, old, out),
            None => Ok(()),
        }
    }

    fn tell(&self, first: usize, last: usize, sent: Sent, out: &mut Vec<u8>) -> anyhow::Result<()> {
        let Sent { first: one, second } = sent;
        let line = format!(in self.alloc;
            "cut at {first} to {last}: {one} lines, then {second}\n"
        )?;
        out.extend_from_slice(line.as_bytes())?;
        Ok(())
    }
}

//! `scan lanes|bytes TURNS`: looks so many times for the end of the plain run that the standard
//! input begins with, by `plain_run` or byte by byte, and gives the sum of what was found.
use lanes_scan::plain_run;
use plane_io::read_to_end;
use plane_real::StdSource;

/// How many bytes a text may have.
const LIMIT: u64 = 1 << 30;

/// What ends a plain run in a configuration file; the last places repeat the first.
const STOPS: [u8; 16] = *b" \t\r\x0b\x0c\n;#'\"\\\0    ";

fn run_by_bytes(bytes: &[u8]) -> usize {
    for (place, byte) in bytes.iter().enumerate() {
        if STOPS.contains(byte) {
            return place;
        }
    }
    bytes.len()
}

/// The sum of the runs that were found. Each turn begins at another place, so that it does not
/// repeat the one before.
fn sum_of_runs(text: &[u8], by_lanes: bool, turns: u16) -> u64 {
    let mut sum: u64 = 0;
    for turn in 0..turns {
        let start = (turn as usize % 64).min(text.len());
        let (_, bytes) = text.split_at(start);
        let run = if by_lanes {
            plain_run(bytes, &STOPS)
        } else {
            run_by_bytes(bytes)
        };
        sum = sum.wrapping_add(run as u64);
    }
    sum
}

/// Carries these words out.
pub(crate) fn run(rt: &HostRuntime, words: &[&str]) -> anyhow::Result<Option<String>> {
    let alloc = rt.alloc();
    let [way, turns] = words else {
        return Ok(None);
    };
    let text = read_to_end(alloc, &mut StdSource::new(rt.stdin()), LIMIT)?;
    let sum = sum_of_runs(text.as_slice(), *way == "lanes", turns.parse()?);
    Ok(Some(format!(in alloc; "{sum}")?))
}

use std::alloc::Global;

/// The words of a line, between which spaces stand. A word that begins with `'` goes on to the next
/// `'`, and may be empty or have spaces; a quote that is not closed goes on to the end of the line.
///
/// # Errors
///
/// Where memory lacks.
pub fn words(alloc: Global, line: &str) -> anyhow::Result<Vec<&str>> {
    let mut list = Vec::new(alloc);
    let mut rest = line;
    for _ in 0..line.len() {
        rest = rest.trim_start_matches(' ');
        if rest.is_empty() {
            break;
        }
        let (word, behind) = match rest.strip_prefix('\'') {
            Some(quoted) => quoted.split_once('\'').unwrap_or((quoted, "")),
            None => rest.split_once(' ').unwrap_or((rest, "")),
        };
        list.push(word)?;
        rest = behind;
    }
    Ok(list)
}

//! How far a copy is, by the health of the server that makes it.

use crate::progress::{Progress, scaled};

/// Returns how far a copy is by the lines of a health: the versions of `copying=`, and their share of the bytes of
/// `bytes=`. None if they do not tell that.
pub fn copy_progress(health: &str) -> Option<Progress> {
    let line = match health.split_once('\n') {
        Some((line, _)) => line,
        None => health,
    };
    let (done, all) = word_in(line, "copying=")?.split_once('/')?;
    let done = done.parse::<u64>().ok()?;
    let all = all.parse::<u64>().ok()?;
    let bytes = word_in(line, "bytes=")?.parse::<u64>().ok()?;
    Some(Progress {
        done,
        all,
        bytes: scaled(bytes, done.min(all), all)?,
    })
}

/// Returns what stands behind a name in the word of a line that begins with it, or None if no word does.
fn word_in<'a>(line: &'a str, name: &str) -> Option<&'a str> {
    for word in line.split(' ') {
        if let Some(value) = word.strip_prefix(name) {
            return Some(value);
        }
    }
    None
}

//! The texts of the lines that say how far a command is.
use commands::copy_progress::copy_progress;
use commands::progress::{Progress, text_of};
use std::alloc::Global;
use std::rt::HostRuntime;
use std::test::Fail;
use std::time::Duration;
use test_support::rows::{cell, with_lines};

/// What a command is, how many of how many are done, the bytes, the milliseconds that passed, and the line. 236 MiB are
/// 247,463,936 bytes; of 2,000 ms for 42 parts, 58 parts take 2,762.
const LINES: &str = "\
copy|0|0|0|0|copy: 0.0 MiB/s
copy|0|9|0|1000|copy: 0 %, 0.0 MiB/s
copy|42|100|247463936|2000|copy: 42 %, 118 MiB/s, 3 s left
extract|1|3|1048576|1000|extract: 33 %, 1.0 MiB/s, 2 s left
import|2|2|10485760|1000|import: 100 %, 10 MiB/s, 0 s left
import|5|3|10485759|1000|import: 100 %, 9.9 MiB/s, 0 s left
import|3|0|524288|1000|import: 0.5 MiB/s
copy|1|60|0|1000|copy: 1 %, 0.0 MiB/s, 59 s left
copy|1|61|0|1000|copy: 1 %, 0.0 MiB/s, 1 min 0 s left
copy|1|3601|0|1000|copy: 0 %, 0.0 MiB/s, 1 h 0 min left
copy|1|3600|0|1000|copy: 0 %, 0.0 MiB/s, 59 min 59 s left
copy|18446744073709551615|18446744073709551615|18446744073709551615|1|copy: 100 %, 17592186044415 MiB/s, 0 s left
copy|1|18446744073709551615|0|18446744073709551615|copy: 0 %, 0.0 MiB/s, 5124095576030 h 25 min left";

/// The lines of a health, in which `;` is a newline, and how far a copy is by them, with its share of the bytes.
const HEALTHS: &str = "\
versions=12 bytes=1000 log=5 copying=3/12 shelves=0;|3/12 250
copying=12/12 bytes=1000|12/12 1000
copying=0/12 bytes=1000|0/12 0
copying=13/12 bytes=1000|13/12 1000
bytes=18446744073709551615 copying=18446744073709551615/18446744073709551615|\
18446744073709551615/18446744073709551615 18446744073709551615
versions=12 bytes=1000 shelves=0;|none
versions=12 copying=3/12 shelves=0;|none
bytes=1000 copying=3/0|none
bytes=1000 copying=3|none
bytes=1000 copying=x/12|none
bytes=1000 copying=3/18446744073709551616|none
bytes=1000 shelves=1;copying=3/12 bytes=9|none
|none";

/// Returns the line that a row of `LINES` asks for.
fn line(alloc: Global, row: &str) -> Result<String, Fail> {
    let progress = Progress {
        done: cell(row, 1).parse::<u64>()?,
        all: cell(row, 2).parse::<u64>()?,
        bytes: cell(row, 3).parse::<u64>()?,
    };
    let passed = Duration::from_millis(cell(row, 4).parse::<u64>()?);
    Ok(text_of(alloc, cell(row, 0), &progress, passed)?)
}

/// Returns how far the copy of a row of `HEALTHS` is.
fn copied(alloc: Global, row: &str) -> Result<String, Fail> {
    let health = with_lines(alloc, cell(row, 0))?;
    let Some(progress) = copy_progress(health.as_str()) else {
        return Ok(String::from_str(alloc, "none")?);
    };
    let Progress { done, all, bytes } = progress;
    Ok(format!(in alloc; "{done}/{all} {bytes}")?)
}

/// Returns the first row whose line is another, or the empty text.
fn wrong_line(alloc: Global) -> Result<&'static str, Fail> {
    for row in LINES.lines() {
        if line(alloc, row)?.as_str() != cell(row, 5) {
            return Ok(row);
        }
    }
    Ok("")
}

/// Returns the first row whose health tells another copy, or the empty text.
fn wrong_health(alloc: Global) -> Result<&'static str, Fail> {
    for row in HEALTHS.lines() {
        if copied(alloc, row)?.as_str() != cell(row, 1) {
            return Ok(row);
        }
    }
    Ok("")
}

#[test]
fn lines_say_how_far_a_command_is(rt: HostRuntime) -> Result<(), Fail> {
    assert_eq!(rt; wrong_line(rt.alloc())?, "");
    assert_eq!(rt; wrong_health(rt.alloc())?, "");
    Ok(())
}

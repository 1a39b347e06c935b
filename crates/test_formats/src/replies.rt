//! Replies and lines that the program does not write: no go.mod has so many lines, and no command sends a bad head.
use crate::rows::{column, on_one_line};
use std::alloc::Global;
use std::test::Fail;
use wire::{Fixed, fixed, fixed_line};

/// - `fixed`: a reply, and its bytes.
/// - `line`: a reply, and its line as commands print it.
///
/// `;` is a newline, except in `text/plain; charset=utf-8`.
pub const ROWS: &str = "\
fixed|BadGoMod(18446744073709551615)|HTTP/1.1 422 Unprocessable Entity\r;Content-Type: text/plain; charset=utf-8\r;\
    Content-Length: 31\r;Connection: close\r;\r;bad-gomod 18446744073709551615;
line|BadGoMod(18446744073709551615)|422 bad-gomod 18446744073709551615
line|BadRequest|400 bad request
line|BadModLength|400 bad mod-length
";

/// Returns the reply of this name.
fn reply_of(name: &str) -> Fixed {
    match name {
        "BadRequest" => Fixed::BadRequest,
        "BadModLength" => Fixed::BadModLength,
        _ => Fixed::BadGoMod(u64::MAX),
    }
}

/// Makes the call of a row, and returns its result as a text.
pub fn given(alloc: Global, row: &str) -> Result<String, Fail> {
    let mut buf = [0; 160];
    let mut line = [0; 40];
    if column(row, 0) == "line" {
        let len = fixed_line(reply_of(column(row, 1)), &mut line);
        return on_one_line(alloc, &line[..len]);
    }
    let len = fixed(reply_of(column(row, 1)), &mut buf);
    on_one_line(alloc, &buf[..len])
}

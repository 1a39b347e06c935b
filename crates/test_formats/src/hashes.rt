//! Hashes of go.mod files, made with Python's hashlib and base64. (Go Modules Reference, "go.sum files".)
use crate::rows::{bytes, column};
use gosum::{h1_of_mod, sum_line};
use modpath::ModulePath;
use modver::Version;
use std::alloc::Global;
use std::test::Fail;

/// - `hash`: a go.mod, and its hash.
/// - `line`: the go.mod of `example.com/lib` v1.0.0, and its go.sum line.
pub const ROWS: &str = "\
hash||h1:G7mAYYxgmS0lVkHyy2hEOLQCFB0DlQFTMLWggykrydY=
hash|module example.com/lib;|h1:4OAnUP7RpKJ0hg7ydNi+A/luktLxx7xSrw0c+FeAtlc=
hash|module example.com/a;;go 1.21;;require example.com/x v1.0.0;|h1:+e+VFogdv6ium6NFOxNbs/iVsZIUuATfkx7HZXv9Esk=
hash|\u{0}ÿ|h1:/66P85L8BekpLj/oChmaHmVoS1SwEuBPpBSZ2Nbp/9w=
line|module example.com/lib;|example.com/lib v1.0.0/go.mod h1:4OAnUP7RpKJ0hg7ydNi+A/luktLxx7xSrw0c+FeAtlc=
";

/// Returns the hash, or the go.sum line, of the go.mod of a row.
pub fn given(alloc: Global, row: &str) -> Result<String, Fail> {
    let gomod = bytes(alloc, column(row, 1))?;
    if column(row, 0) == "hash" {
        return Ok(h1_of_mod(alloc, &gomod)?);
    }
    let path = ModulePath::parse(alloc, "example.com/lib")?;
    let version = Version::parse(alloc, "v1.0.0")?;
    Ok(sum_line(alloc, &path, &version, &gomod)?)
}

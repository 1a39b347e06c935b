//! The highest version, and the latest. (Go Modules Reference, "GOPROXY protocol", on `@latest`.)
use crate::rows::{bytes, column, named, versions_of};
use gomod::GoMod;
use latest::{latest, latest_of, top};
use std::alloc::Global;
use std::test::Fail;

/// - `top`: versions, and the index of the highest, or `-` if there is none.
/// - `latest`: versions, a go.mod, and the index of the highest that it does not retract, or `-` if there is none.
///   `latest` and `latest_of` return the same one.
pub const ROWS: &str = "\
top||-
top|v1.0.0-rc.10 v1.0.0 v1.0.0-rc.2|1
top|v1.0.0-rc.2 v1.0.0-rc.10|1
top|v1.1.0 v1.2.0-rc.1|0
top|v0.0.0-20240101000000-aaaaaaaaaaaa v0.0.1-0.20230101000000-bbbbbbbbbbbb|0
top|v0.0.0-20240230000000-aaaaaaaaaaaa v1.0.0-0.20230101000000-bbbbbbbbbbbb|1
latest|v1.0.0 v1.1.0|module example.com/ra;retract [v1.0.5, v1.1.0];|0
latest|v1.1.0 v1.2.0-rc.1|module example.com/rb;|0
latest|v1.0.0|module example.com/rd;retract v1.0.0;|-
latest|v1.0.0 v1.2.0 v1.1.0 v1.3.0|module example.com/re;retract [v1.2.0, v1.3.0];retract v1.1.0;|0
latest|v1.2.0 v1.0.0 v1.1.0|module example.com/rf;retract v1.2.0;|2
latest|v1.0.0 v1.0.1 v1.1.0-rc.1|module example.com/rg;retract v1.0.1;retract [v0.9.0, v1.0.0];|2
latest||module example.com/a;|-
";

/// Returns the index that the call of a row returns.
pub fn given(alloc: Global, row: &str) -> Result<String, Fail> {
    let list = versions_of(alloc, column(row, 1))?;
    if column(row, 0) == "top" {
        return Ok(named(alloc, top(list.as_slice()))?);
    }
    let gomod = GoMod::read(alloc, &bytes(alloc, column(row, 2))?)?;
    let found = latest_of(alloc, list.as_slice(), &gomod)?;
    if found != latest(list.as_slice(), &gomod) {
        return Ok(String::from_str(alloc, "two answers")?);
    }
    Ok(named(alloc, found)?)
}

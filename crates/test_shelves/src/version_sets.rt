//! Versions in ascending precedence. (SemVer 2.0.0, section 11.)
use std::test::Fail;
use world::text_set::TextSet;
use world::versions::ascending;

/// Versions in no particular order, one of them twice.
const VERSIONS: &str = "\
v1.0.0
v1.0.0-rc.1
v2.0.0+incompatible
v1.0.0-alpha.beta
v1.0.0-beta.11
v1.0.0-alpha
v2.0.0
v1.0.0-beta
v1.0.0
v1.0.0-alpha.1
v1.0.0-beta.2
";

const ORDERED: &str = "\
v1.0.0-alpha
v1.0.0-alpha.1
v1.0.0-alpha.beta
v1.0.0-beta
v1.0.0-beta.2
v1.0.0-beta.11
v1.0.0-rc.1
v1.0.0
v2.0.0
v2.0.0+incompatible
";

#[test]
fn versions_go_by_precedence(rt: HostRuntime) -> Result<(), Fail> {
    let mut texts = TextSet::new(rt.alloc());
    for text in VERSIONS.lines() {
        texts.insert(String::from_str(rt.alloc(), text)?)?;
    }
    let versions = ascending(rt.alloc(), &texts)?;
    assert!(rt; versions.as_slice().len() == 10);
    assert!(rt; versions.lines(rt.alloc())?.as_slice() == ORDERED.as_bytes());
    Ok(())
}

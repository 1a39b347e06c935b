//! The tests.
use crate::stores::{names_no_team, wrong_row_of_all};
use crate::unadopted::{TABLES, outcome};
use std::test::Fail;
use test_support::calls::CALLS;

/// The tables refuse a second row for a version, and the store counts that as a failure.
const SECOND_ROW: &str = "\
insert|common|example.com/lib|v1.0.0|module example.com/lib; = ()
count|common|example.com/lib = 1
failures = 0
insert|common|example.com/lib|v1.0.0|module example.com/lib; = Device
failures = 1
count|common|example.com/lib = 1
";

#[test]
fn tables_in_memory_answer(rt: HostRuntime) -> Result<(), Fail> {
    for scripts in [CALLS, SECOND_ROW] {
        assert_eq!(rt; wrong_row_of_all(rt.alloc(), scripts)?, "");
    }
    Ok(())
}

#[test]
fn a_connection_on_which_a_statement_fails_is_not_adopted(rt: HostRuntime) -> Result<(), Fail> {
    assert_eq!(rt; outcome(rt.alloc(), TABLES, None)?.as_str(), "adopted");
    assert_eq!(rt; outcome(rt.alloc(), "BEGIN", None)?.as_str(), "Device None");
    assert_eq!(rt;
        outcome(rt.alloc(), TABLES, Some(1))?.as_str(),
        "Device None"
    );
    Ok(())
}

#[test]
fn no_part_is_made_of_no_team(rt: HostRuntime) -> Result<(), Fail> {
    assert!(rt; names_no_team(rt.alloc(), &[])?);
    Ok(())
}

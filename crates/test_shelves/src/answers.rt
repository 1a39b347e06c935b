//! The answer to the first message of a stream.
use crate::connections::{GET, PUBLISHED, PUT};
use crate::shelves::shelves;
use engine::{Io, answer_one};
use histories::{Hearing, Telling};
use std::alloc::Global;
use std::cell::Cell;
use std::test::Fail;
use test_support::doubles::{Sink, Source};
use wire::RouteTable;
use world::shelves::Shelves;

/// Answers the first message of a stream from shelves, and then drops them.
fn serve_one<S: Shelves + Drop>(
    alloc: Global,
    mut shelves: S,
    reader: Source,
    writer: &mut Sink,
) -> Result<Option<u16>, Io> {
    answer_one(
        alloc,
        &mut RouteTable::new(alloc),
        &mut Hearing::new(reader),
        &mut Telling::new(writer),
        &mut shelves,
    )
}

#[test]
fn answers_one_and_reads_no_more(rt: HostRuntime) -> Result<(), Fail> {
    let mut stream = Vec::from_slice(rt.alloc(), PUT)?;
    stream.extend_from_slice(GET)?;
    let mut writer = Sink::new(rt.alloc(), usize::MAX);
    let left = Cell::new(stream.len());
    let mut reader = Source::new(stream.as_slice(), 1);
    reader.left = Some(&left);
    let status = serve_one(rt.alloc(), shelves(rt.alloc())?, reader, &mut writer);
    assert!(rt; status == Ok(Some(201)));
    assert!(rt; writer.taken.as_slice() == PUBLISHED.as_bytes());
    assert!(rt; writer.is_flushed);
    assert!(rt; left.get() == GET.len());
    Ok(())
}

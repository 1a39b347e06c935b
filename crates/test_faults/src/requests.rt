//! Requests and their replies.
use crate::steps::set_up;
use std::alloc::Global;
use std::test::Fail;
use test_support::requests::replied;
use world::shelves::Shelves;

/// The reply if the store fails.
const UNAVAILABLE: &[u8] =
    b"HTTP/1.1 503 Service Unavailable\r\nContent-Type: text/plain; charset=utf-8\r\nContent-Length: 12\r\n\
      Connection: close\r\n\r\nunavailable\n";

/// How a store answered a request.
#[derive(Clone, Copy, Drop, PartialEq, Eq)]
enum Answer {
    /// As the shelves in maps answer.
    Same,
    /// With the 503, and a failure was counted.
    Refused,
    /// In any other way.
    Wrong,
}

/// Returns how a store answers a request. The shelves in maps answer it too, unless the store answers 503.
fn answer_to<S: Shelves, M: Shelves>(
    alloc: Global,
    shelves: &mut S,
    maps: &mut M,
    row: &str,
) -> Result<Answer, Fail> {
    let failures = shelves.failures();
    let told = replied(alloc, shelves, row)?;
    let is_same = if told.as_slice() == UNAVAILABLE {
        if shelves.failures() > failures {
            return Ok(Answer::Refused);
        }
        false
    } else {
        told.as_slice() == replied(alloc, maps, row)?.as_slice()
    };
    Ok(if is_same { Answer::Same } else { Answer::Wrong })
}

/// Has a store answer the requests of rows, and returns how many got the reply of shelves in maps. Each row that was
/// answered wrong is added to `wrong`. The maps do the steps of `SETUP` first, and are dropped at the end.
pub fn answered<S: Shelves, M: Shelves + Drop>(
    alloc: Global,
    shelves: &mut S,
    mut maps: M,
    rows: &str,
    wrong: &mut String,
) -> Result<u8, Fail> {
    set_up(alloc, &mut maps)?;
    let mut answered = 0u8;
    for row in rows.lines() {
        match answer_to(alloc, shelves, &mut maps, row)? {
            Answer::Same => answered = answered.saturating_add(1),
            Answer::Refused => (),
            Answer::Wrong => wrong.push_str(row)?,
        }
    }
    Ok(answered)
}

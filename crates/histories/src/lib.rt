//! Streams that keep account of their bytes: what a reader gave, and what a writer took.
//!
//! An account takes no memory and no time: only proofs read it. Nobody but [`Hearing`] and [`Telling`] can write one,
//! or use the streams inside them. So an account has each byte that passed since the stream was wrapped, in its order,
//! and no other.
//!
//! A stream whose time is bounded has its own clock, as a [`Socket`] has that of the system. Whoever reads from it or
//! writes to it is handed no clock, so its time is counted by that one.
#![tactic(auto)]

mod ask;
mod asks;
mod call;
mod calls;
mod clock_face;
mod connection;
mod count;
mod deadline;
mod deadline_reader;
mod deadline_writer;
mod failure;
mod failures;
mod hearing;
mod record;
mod rolling_deadline_writer;
mod socket;
mod start;
mod telling;
mod wait;
mod way;

pub use ask::Ask;
pub use asks::Asks;
pub use call::Call;
pub use calls::Calls;
pub use clock_face::ClockFace;
pub use connection::{Connection, over_tcp, over_unix};
pub use count::Count;
pub use deadline::Deadline;
pub use deadline_reader::DeadlineReader;
pub use deadline_writer::DeadlineWriter;
pub use failure::Failure;
pub use hearing::{Hear, Hearing};
pub use rolling_deadline_writer::RollingDeadlineWriter;
pub use socket::{Socket, WaitBounds};
pub use start::Start;
pub use telling::{ResetDeadline, Tell, Telling};
pub use wait::{BoundRead, BoundWrite, HasCalls};

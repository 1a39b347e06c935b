//! Answering messages over connections: one message on each, and one connection after another.
//!
//! [`Entrances`] is where callers come in: peers at a port or at standard input, and operators at a Unix socket. A
//! history has what was opened there, who was taken, and with what passed over it each connection that was ended. Only
//! clauses read the history. [`SystemEntrances`] has those of the system: it is proved over any listeners, and its
//! history is what these were asked. [`MemoryEntrances`] has callers in memory.
//!
//! [`serve_on`] takes a number of peers from [`Callers`], and on the connection of each it answers one message as
//! `engine::answer_one` does. A connection that fails counts, and does not disturb those after it.
//!
//! A slow peer holds up all others, because there is one connection at a time. So its time and its bytes are bounded:
//!
//! | what | bound |
//! |---|---|
//! | all reads of a message; again all writes of a reply | 5 seconds, and one more for each 1,048,576 bytes moved |
//! | what is read and dropped after the message | 2 seconds, and 33,554,432 bytes |
//!
//! Each wait is at most what is left, so one connection holds the others at most 12 seconds, and one more for each
//! 1,048,576 bytes that it moves: 29 for the largest publish, 28 for the largest zip. A peer that sends a byte just
//! before each wait ends buys nothing with it: only each full 1,048,576 bytes buy a second.
//!
//! After a reply [`Peer::end`] shuts the writing side, and reads and drops bytes that came after the message. A system
//! resets a connection that is closed while bytes of it are unread, and the peer then loses the reply that was on its
//! way. After a 400, a 413 or a 503, whose message may be only partly read, it waits for what is still to come. After
//! any other reply it drops only what is there already, so that a silent peer holds up nobody.
#![tactic(auto)]

mod bounds;
mod callers;
mod connection;
mod deed;
mod entrances;
mod listener_call;
mod listeners;
mod listening;
mod memory;
mod pace;
mod polled;
mod rest;
mod serve;
mod socket_file;
mod sockets;
mod system;

pub use callers::{Caller, Callers};
pub use connection::{After, Answered, Peer, answer_in_time};
pub use deed::{Deed, ListenOn, Search};
pub use entrances::Entrances;
pub use memory::MemoryEntrances;
pub use serve::{serve_on, written_status};
pub use sockets::{SystemCaller, SystemOperator, SystemPeer};
pub use system::SystemEntrances;

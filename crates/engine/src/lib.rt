//! Bytes in, bytes out: the messages of a stream, answered one after another by the machine of the shelves.
//!
//! A stream is a sequence of HTTP/1.0 or 1.1 messages (RFC 9112), in the profile of the crate `framing`. The machine is
//! that of the crate `machine`, over any store. For a stream the crate writes the reply to each of its messages, and
//! then what closes it:
//!
//! | what is left after the messages | what is written for it |
//! |---|---|
//! | nothing | nothing |
//! | a good head that announces a body of more than 17,825,792 bytes | one 413 |
//! | anything else, such as half a message | one 400 |
//! | anything, if memory runs out while a message is gathered or handed out | one 503, in place of all that is left |
//!
//! A message is answered as the machine answers the request in it. `wire` reads its target. The first bytes of the body
//! of a PUT are the go.mod, as many as the one header `Mod-Length` says, and the rest is the zip. A PUT has no files if
//! its `Mod-Length` is absent, doubled, malformed or larger than the body; the machine's checks answer it.
//!
//! | body of the PUT | `Mod-Length` | go.mod and zip |
//! |---|---|---|
//! | `module example.com/a`, a newline, `Z` | `21` | `module example.com/a` and its newline; `Z` |
//! | `module example.com/a`, a newline, `Z` | `0` | nothing; the whole body |
//! | `module example.com/a`, a newline, `Z` | `23`, `021`, `+21`, two headers, or none | none: 400 `bad mod-length` |
//!
//! The time of a PUT is that of the one header `Version-Time`, or none without that header. A malformed value is a bad
//! time, and so are two such headers; the machine's checks answer them.
//!
//! | the machine's reply | what is written |
//! |---|---|
//! | a go.mod or a zip | 200 and its bytes as they were received |
//! | a go.mod, if the message asks for its go.sum line | 200 and the line, ended by a newline |
//! | a version and its time | 200 and `{"Time":"..","Version":".."}`, or `{"Version":".."}` without a time |
//! | versions, or paths | 200 and one a line, each ended by a newline |
//! | not found, or the outcome of a publish | a fixed text |
//!
//! A message is answered 503 if memory runs out before the machine sees what it asks or while the body of its reply is
//! composed, or if the store meets a fault. The open store then stands for the world that it stood for, but after a
//! later crash a publish that met a fault may be there, whole. Writing files and fixed texts needs no more memory, so
//! nothing but the writer can fail once the machine has decided on a publish: one that the store accepted is never
//! answered 503.
//!
//! A fixed text is one write, and so is a head with a body of at most 65,536 bytes, if there is memory to join them.
//! Otherwise the head and the body are two writes of the same bytes.
//!
//! An interrupted read or write is tried at most 1,000 times. If the reader or the writer fails, the call fails with
//! [`Io`]: what was done before stays, and the contracts of [`answer_all`] and [`answer_one`] say what was written.
//!
//! A stream is a `Session`, which answers one message after another: [`answer_all`] answers all of its stream, and
//! [`answer_one`] the first. A router reads the targets. [`answer_all`] makes one for its stream; a caller of
//! [`answer_one`] with many streams lends one to all.
#![tactic(auto)]

mod answer;
pub mod fault;
pub mod laws;
mod next;
pub mod page;
mod read;
mod request;
mod session;
pub mod write;

pub use answer::{answer_all, answer_one};
pub use fault::Io;

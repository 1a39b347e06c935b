//! Splits a stream of HTTP/1.1 bytes into messages.
//!
//! A message is a request head in the grammar of `httparse` (RFC 9112, sections 2 to 6) and then a body. A head has at
//! most 16,384 bytes, counting its empty line and the empty lines before it, and at most 64 headers. It is good if it
//! has no `Transfer-Encoding` and at most one `Content-Length`, which is `0` or one to ten digits that do not begin
//! with 0; without one the body is empty. A body has at most 17,825,792 bytes. A stream is any number of messages and
//! then an end: no more bytes, or a good head whose length is too large (413), or any other rest (400).
//!
//! The crate knows no targets and no replies: these are in `wire`, which re-exports all that is public here.
#![tactic(auto)]

mod cut;
pub mod framer;
mod head;
mod head_front;
pub mod laws;
pub mod length;
pub mod message;

pub use framer::{Bad, Framer, Next};
pub use length::length_value;
pub use message::{Memory, Message};

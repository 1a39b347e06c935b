//! The server's side of HTTP/1.1 on bytes: reads what a message asks for, and writes the bytes of replies. The messages
//! of a stream come from `framing`, which this crate re-exports.
//!
//! A target is `/k/`, a key, `/` and a rest, which is percent-decoded once (RFC 3986, section 2.1) and contains a
//! module path and a version in the escaped form of the Go Modules Reference ("GOPROXY protocol"). In a GET below
//! `/@v/`, one `.info`, `.mod` or `.zip` at the end is removed, and the version is left. Anything else is unreadable.
//!
//! | message | asks for |
//! |---|---|
//! | `GET /k/key/example.com/lib/@v/v1.0.0.info` | `v1.0.0` of `example.com/lib` with its time |
//! | `GET /k/key/example.com/lib/@v/v1.0.0.mod` | its go.mod |
//! | `GET /k/key/example.com/%21lib/@v/v1.0.0.zip` | the zip of `example.com/Lib` at `v1.0.0` |
//! | `GET /k/key/example.com/lib/@v/list` | the versions of `example.com/lib` |
//! | `GET /k/key/example.com/lib/@latest` | its latest version |
//! | `GET /k/key/-/modules` | the paths; the dash and its slash must not be percent-encoded |
//! | `GET /k/key/-/gosum/example.com/lib/@v/v1.0.0` | the go.sum line of `v1.0.0` of `example.com/lib` |
//! | `PUT /k/key/example.com/lib/@v/v1.0.0` | to publish `example.com/lib` at `v1.0.0` |
//! | `GET /k/key/example.com/Lib/@v/v1.0.0.mod` | nothing: upper-case letters must be escaped |
//!
//! A reply is a status line, the headers `Content-Type`, `Content-Length` and `Connection: close`, and a body. A reply
//! with a fixed body takes no memory.
#![tactic(auto)]

pub mod encode;
pub mod info;
pub mod laws;
mod module_version;
pub mod reply;
pub mod resource;
mod resources;
mod routes;
pub mod targets;

pub use encode::{encode_head, fixed, fixed_line};
pub use framing::{Bad, Framer, Memory, Message, Next, length_value};
pub use info::info_body;
pub use reply::{Fixed, MediaType, StatusCode};
pub use resource::{Resource, Target};
pub use routes::RouteTable;
pub use targets::target;

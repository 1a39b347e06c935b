//! A store that is served to peers on a port and to operators on a Unix socket. An operator sends a line that orders a
//! change, a copy or the end, or asks for a list or for the health, and gets what came of it.
//!
//! | what | where |
//! |---|---|
//! | what makes copies of it, and what shows when | [`Copies`], [`CopyOrders`], [`WallClock`] |
//! | what a ping is told: how connections were answered, what was counted by shelf, and more | [`Tally`], [`Health`] |
//! | what an operator gets, and a list of the store | [`ControlReply`], [`read_list`] |
//! | taking an operator's line, and carrying its order out | [`Operator`], [`carry_out`] |
//! | peers of a port and operators of a socket, one after another | [`serve_both`] |
//! | what happened, in lines without a key, for standard error | [`Notice`], [`opened`], [`ended`], [`tell`] |
//! | room on the disk, so that an order can be carried out once it is full | [`KeepsRoom`], [`Reserve`] |
//! | the operator's side | [`send`]; in steps [`send_order`], [`hear_on`], [`reply_to`] |
#![tactic(auto)]

mod busy_copies;
mod carry;
mod client;
mod control_reply;
mod copies;
mod faults;
mod health;
mod health_text;
pub mod laws;
mod line;
mod listing;
mod monitored_store;
mod naming;
mod notice;
mod obeying;
mod operator;
mod outcome;
mod patience;
mod peer_store;
mod pinging;
mod plain;
mod progress;
mod reserve;
mod serve;
mod serving;
mod store_call;
mod tally;
mod telling;
mod traffic;
mod turn;
mod wall_clock;

pub use carry::{carry_out, carry_out_in};
pub use client::{OrderReply, SendError, reply_to, send, send_order};
pub use control_reply::ControlReply;
pub use copies::{BegunCopy, CatalogRefusal, Copies, CopyOrders, CopyRefusal};
pub use health::{Health, Metrics};
pub use line::{Came, Extent, ReadError, hear_on};
pub use listing::read_list;
pub use notice::{Noted, Notice, ended, opened, reserved};
pub use operator::{Obeyed, Operator};
pub use reserve::{KeepsRoom, Reserve, Room};
pub use serve::serve_both;
pub use tally::Tally;
pub use telling::tell;
pub use traffic::{ShelfTraffic, Traffic, Transfer};
pub use wall_clock::WallClock;

//! How much time and how many bytes a peer gets. It holds up all others, because connections are served one after
//! another.
//!
//! A bound on each wait is not enough, because a peer can send a byte just before each wait ends. A bound on the number
//! of reads is not enough either, because a large body needs thousands. A fixed end would cut off a large publish. So a
//! peer buys time with bytes, and no wait is longer than what is left of it. The crate's root comment says how long one
//! connection then holds the others.

/// The seconds for all reads of a message, and again for all writes of a reply, before bytes buy more.
pub(crate) const PATIENCE: u64 = 5;

/// The bytes that buy a peer one second more.
pub(crate) const BYTES_A_SECOND: u64 = 1_048_576;

/// The seconds for what a peer still sends after its message. Bytes buy no time here, because they serve nobody.
pub(crate) const REST_PATIENCE: u64 = 2;

/// The most bytes after a message that are read and dropped.
pub(crate) const MOST_DROPPED: usize = 33_554_432;

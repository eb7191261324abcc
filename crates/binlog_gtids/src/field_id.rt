//! The field ids of a GTID with a tag.
//!
//! Source: MySQL's source documentation, `Gtid_event`.

/// The flags.
pub const GTID_FLAGS: u64 = 0;
/// The source's UUID.
pub const SID: u64 = 1;
/// The transaction number (GNO).
pub const GNO: u64 = 2;
/// The tag.
pub const TAG: u64 = 3;
/// `last_committed`: the logical timestamp of the latest commit that the transaction depends on.
pub const LAST_COMMITTED: u64 = 4;
/// `sequence_number`: the logical timestamp of the transaction's own commit.
pub const SEQUENCE_NUMBER: u64 = 5;
/// The commit timestamp on the immediate server.
pub const IMMEDIATE_COMMIT_TIMESTAMP: u64 = 6;
/// The commit timestamp on the original server.
pub const ORIGINAL_COMMIT_TIMESTAMP: u64 = 7;
/// The transaction length.
pub const TRANSACTION_LENGTH: u64 = 8;
/// The version of the immediate server.
pub const IMMEDIATE_SERVER_VERSION: u64 = 9;
/// The version of the original server.
pub const ORIGINAL_SERVER_VERSION: u64 = 10;
/// The commit group ticket: the transactions with the same ticket are committed together.
pub const COMMIT_GROUP_TICKET: u64 = 11;

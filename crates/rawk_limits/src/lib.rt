//! The limits of the language and of its sessions, each in one place.
#![tactic(auto)]

/// The greatest number of a field, and the greatest NF that can be assigned.
pub const LAST_FIELD: usize = 1_000_000;

/// The most bytes of a program's text.
pub const PROGRAM_BYTES: usize = 1_048_576;

/// The most constructs of a program's text that are open at once.
pub const OPEN_CONSTRUCTS: usize = 200;

/// The most steps that a session may be asked to keep.
pub const HISTORY: u64 = 1_000_000;

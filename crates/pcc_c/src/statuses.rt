//! The statuses that calls return.

/// The call did what was asked; the container is accepted.
pub const DONE: u32 = 0;

/// The container to be upgraded is of a later version already.
pub const ALREADY: u32 = 12;

/// The bytes for the policy are at most one line, and not the name of a built-in policy; or the
/// container is of version 1, and they aren't such a name.
pub const UNKNOWN_POLICY: u32 = 32;

/// The bytes for the policy are neither a name nor a policy file that spells a policy.
pub const BAD_POLICY: u32 = 33;

/// The call ran out of memory.
pub const NO_MEMORY: u32 = 34;

/// The call would have cached more results than the limit allows.
pub const TOO_MANY_RESULTS: u32 = 35;

/// The result has more bytes than the buffer.
pub const NO_ROOM: u32 = 36;

/// The text is no source that can be assembled.
pub const BAD_SOURCE: u32 = 37;

/// The bytes are no program of classic BPF that can be compiled.
pub const BAD_PROGRAM: u32 = 38;

/// A part of the verification condition isn't easy to prove.
pub const NOT_EASY: u32 = 39;

/// The container that would be made is past a limit.
pub const TOO_BIG: u32 = 40;

/// There is no such version, or the step bound isn't one that the version may have.
pub const BAD_VERSION: u32 = 41;

/// The handle has a host already.
pub const HOST_OPEN: u32 = 42;

/// The handle has no host.
pub const NO_HOST: u32 = 43;

/// The packet has more bytes than a packet may have.
pub const LONG_PACKET: u32 = 44;

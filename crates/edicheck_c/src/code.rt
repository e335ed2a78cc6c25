//! The codes that calls answer. `include/edicheck.h` has the same.

/// The whole answer is in the buffer.
pub const DONE: u32 = 0;
/// Memory was refused, and nothing is in the buffer.
pub const NO_MEMORY: u32 = 1;
/// The store, the text or the script has over 4,194,304 octets.
pub const TOO_LONG: u32 = 2;
/// The store breaks a rule; the number is the place of its first fault.
pub const BAD_STORE: u32 = 3;
/// The answer is longer than the buffer; the number is its length.
pub const NO_ROOM: u32 = 4;
/// The stamp isn't `YYMMDD:HHMM`.
pub const BAD_STAMP: u32 = 5;
/// The reference isn't 1 to 14 octets of `A` to `Z` and `0` to `9`.
pub const BAD_REFERENCE: u32 = 6;
/// The text has no UNB, so nobody can be answered.
pub const NO_UNB: u32 = 7;
/// What the UNB of the text tells can't be answered.
pub const BAD_UNB: u32 = 8;
/// The script breaks its grammar; the replies before that are in the buffer, and the line that tells why it stopped.
pub const BAD_SCRIPT: u32 = 9;
/// The handle is closed.
pub const CLOSED: u32 = 10;
/// The edit reaches past the end of the text.
pub const NO_RANGE: u32 = 11;

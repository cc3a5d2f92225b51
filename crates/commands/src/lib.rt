// The programs' command lines read, and their answers printed, as functions on slices.
//
// A line is any bytes of any length, without its LF; the caller cuts lines.

#![tactic(auto)]

mod dialects;
mod hexadecimal;
mod lines;
mod numbers;
mod replies;

use accounts::Account;
pub use dialects::{RINGSWAP_LONGEST, THAWCROFT_LONGEST, read_in, ringswap, thawcroft};
pub use hexadecimal::unhex;
pub use lines::read;
pub use replies::{put_bad, put_book, put_refused, put_reply};

// No answer is longer. It is put where a block's answers are gathered: as a value, an ArrayString say, it would be copied there once more.
pub const ANSWER_SIZE: usize = 32;

// How many bytes a line may have without its LF, and whether every command is answered or document 01's alone.
// No enum of the two programs', since the theorem `CommandsRead` is of any length.
#[derive(Clone, Copy, Debug, PartialEq, Eq)]
pub struct Dialect {
    // Of 32 bits, so that in every dialect a byte more than the longest line is a `usize`.
    pub longest: u32,
    // A flag, since all that is asked of it is one side of a single `||`, in `admits`: an enum of two would be compared there.
    pub full: bool,
}

// What a line commands. A settlement's words of hexadecimal are the line's own, since no heap holds their bytes; `unhex` gives them.
#[derive(Clone, Copy, Debug, PartialEq, Eq)]
pub enum Command<'a> {
    Issue { account: Account, count: u32 },
    Redeem { account: Account, count: u32 },
    Query { account: Account },
    Settle { exchange: &'a [u8], proof: &'a [u8] },
}

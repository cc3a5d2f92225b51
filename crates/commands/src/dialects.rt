// Which commands a program answers, and how long its lines may be.
ghost use Rattle.std.specs.Prelude.{◌≡◌};
ghost use Rattle.commands.specs.Dialects.{is_scope_letter, admits, command_in};
ghost use Rattle.commands.specs.Dialects as dialects;
ghost use Rattle.commands.specs.View.{read_as, command_of, WordsIn};

use crate::{Command, Dialect, lines};

pub const RINGSWAP_LONGEST: u32 = 8192;

pub const THAWCROFT_LONGEST: u32 = 40960;

// The dialects are functions, not constants, so that a contract says which of the definitions' they are.
pub fn ringswap() -> Dialect
    ensures { result ≡ dialects.ringswap }
{
    Dialect {
        longest: RINGSWAP_LONGEST,
        full: false,
    }
}

pub fn thawcroft() -> Dialect
    ensures { result ≡ dialects.thawcroft }
{
    Dialect {
        longest: THAWCROFT_LONGEST,
        full: true,
    }
}

// Whether a letter is that of a command of document 01, the scope.
fn is_scope_letter(letter: u8) -> bool
    ensures { result ≡ is_scope_letter letter }
{
    matches!(letter, b'I' | b'D' | b'H' | b'S')
}

#[tactic(auto, unfolding(crate::specs::Dialects::admits))]
fn admits(dialect: Dialect, line: &[u8]) -> bool
    ensures { result ≡ admits dialect line.now }
{
    // `as`: the library has no From of 32 bits for a size.
    line.len() <= dialect.longest as usize
        && (dialect.full || is_scope_letter(ascii::byte(line, 0)))
}

// What a line commands in a dialect, for any bytes: a line that is too long is ill-formed, and a command that the dialect does not have.
#[tactic(auto, unfolding(crate::specs::Dialects::command_in))]
pub fn read_in(dialect: Dialect, line: &[u8]) -> Option<Command<'_>>
    ensures read { read_as command_of result ≡ command_in dialect line.now }
    ensures words { WordsIn line.now result }
{
    if admits(dialect, line) {
        lines::read(line)
    } else {
        None
    }
}

// A command line by its first letter; its words are one space apart.
ghost use Rattle.std.specs.Prelude.{◌≡◌, ℕ};
ghost use Rattle.model.specs.Calls.{Call};
ghost use Rattle.commands.specs.Reader.{first_word, first_number, read_three, read_two, read_settle, read_command};
ghost use Rattle.commands.specs.View.{read_as, command_of, WordsIn};
ghost use Rattle.commands.specs.inner.Parts.{split_of, numbered_of, call_on};

use crate::{Command, hexadecimal, numbers};
use accounts::Account;

// What comes before the first space, and after it; by `ascii::cut`, which passes eight bytes a turn, an issue line takes 10 % more instructions.
#[tactic(auto, using(crate::proofs::Words::word_found, ascii::proofs::Places::missed), unfolding(crate::specs::Reader::first_word))]
fn first_word(text: &[u8]) -> Option<(&[u8], &[u8])>
    ensures { read_as split_of result ≡ first_word text.now }
{
    let end = ascii::first(text, b' ')?;
    Some((&text[..end], &text[end + 1..]))
}

// A number before the first space, and what follows the space.
#[tactic(auto, unfolding(crate::specs::Reader::first_number))]
fn first_number(text: &[u8]) -> Option<(u32, &[u8])>
    ensures { read_as numbered_of result ≡ first_number text.now }
{
    let (word, rest) = first_word(text)?;
    let number = numbers::read(word)?;
    Some((number, rest))
}

// The last number is all that is left of the line, so a space in it makes it none.
#[tactic(auto, unfolding(crate::specs::Reader::read_three))]
fn account_and_count(text: &[u8]) -> Option<(Account, u32)>
    ensures { (f : ℕ → ℕ → ℕ → Call) → read_as (call_on f) result ≡ read_three f text.now }
{
    let (card, after_card) = first_number(text)?;
    let (kind, after_kind) = first_number(after_card)?;
    let count = numbers::read(after_kind)?;
    Some((Account { card, kind }, count))
}

#[tactic(auto, unfolding(crate::specs::Reader::read_two))]
fn query(text: &[u8]) -> Option<Command<'_>>
    ensures read { read_as command_of result ≡ read_two text.now }
    ensures words { WordsIn text.now result }
{
    let (card, after_card) = first_number(text)?;
    let kind = numbers::read(after_card)?;
    let account = Account { card, kind };
    Some(Command::Query { account })
}

#[tactic(auto, using(crate::proofs::Words::settled_in), unfolding(crate::specs::Reader::read_settle))]
fn settlement(text: &[u8]) -> Option<Command<'_>>
    ensures read { read_as command_of result ≡ read_settle text.now }
    ensures words { WordsIn text.now result }
{
    let (exchange, proof) = first_word(text)?;
    let both = hexadecimal::is_hexadecimal(exchange) && hexadecimal::is_hexadecimal(proof);
    both.then_some(Command::Settle { exchange, proof })
}

// What a line commands, for any bytes: none is an ill-formed line.
#[tactic(auto, using(crate::proofs::Words::words_of_text), unfolding(crate::specs::Reader::read_command, crate::specs::Reader::read_form))]
pub fn read(line: &[u8]) -> Option<Command<'_>>
    ensures read { read_as command_of result ≡ read_command line.now }
    ensures words { WordsIn line.now result }
{
    let [letter, b' ', text @ ..] = line else {
        return None;
    };
    // `I` and `D` by `?`: where `map` makes the command of an account and a count, such a line takes 5 % more instructions.
    match letter {
        b'I' => {
            let (account, count) = account_and_count(text)?;
            Some(Command::Issue { account, count })
        }
        b'D' => {
            let (account, count) = account_and_count(text)?;
            Some(Command::Redeem { account, count })
        }
        b'H' => query(text),
        b'S' => settlement(text),
        _ => None,
    }
}

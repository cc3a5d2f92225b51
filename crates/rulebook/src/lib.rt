// A rule text, read into two flat tables or refused with its number and line.
//
// `read` keeps the tables in locals and lends them to the functions below it; no line copies one. `take_line` and each `take`
// below it refuse a line by the first question that it does not meet, and then leave the tables as they were.

#![tactic(auto)]

mod cards;
mod groups;
pub mod layout;
mod rules;
mod text;

ghost use Rattle.rulebook.specs.Reads.{no_tables, Reads};
ghost use Rattle.std.specs.Prelude.{◌≡◌};

use answers::{Reason, Refusal};
use layout::{CARD_TABLE_SIZE, CardTable, RULE_TABLE_SIZE, RuleTable};

// Cards with their groups, and rules, by value. Their layout is that of `layout`, their meaning that of specs/View.antt.
#[derive(Clone, Copy, Debug, PartialEq, Eq)]
pub struct Tables {
    pub cards: CardTable,
    pub rules: RuleTable,
}

impl Tables {
    ghost use Rattle.model.specs.Book.{no_book};
    ghost use Rattle.rulebook.specs.View.{tables_book};

    // The tables of the empty text, and of a refused one: a book without cards.
    #[tactic(auto, using(crate::proofs::Grown::no_tables_lem))]
    pub fn empty() -> Tables
        ensures tables { result ≡ no_tables }
        ensures book { tables_book result ≡ no_book }
    {
        Tables {
            cards: [0; CARD_TABLE_SIZE],
            rules: [0; RULE_TABLE_SIZE],
        }
    }
}

// A rule text of any bytes: questions 1 to 7, line by line.
pub fn read(text: &[u8]) -> Result<Tables, Refusal>
    ensures { Reads result text.now }
{
    if limits::TEXT_LIMIT < text.len() {
        return Err(Reason::TextTooLong.into());
    }
    let mut tables = Tables::empty();
    text::take_lines(text, &mut tables)?;
    Ok(tables)
}

// A text's lines, each up to its LF, and what a line is.
ghost use Rattle.std.specs.Prelude.{◌≡◌, ◌≤◌, length};
ghost use Rattle.model.specs.Limits.{text_limit};
ghost use Rattle.model.specs.Opening.{opening};
ghost use Rattle.rulebook.specs.Reads.{no_tables};
ghost use Rattle.answers.specs.View.{answer_of};
ghost use Rattle.rulebook.specs.View.{tables_book};
ghost use Rattle.rulebook.specs.inner.Lines.{LineTaken};

use crate::{Tables, cards, groups, layout, rules};
use answers::{Reason, Refusal};

// One line, without its LF: the first letter decides its form.
fn take_line(line: &[u8], tables: &mut Tables) -> Result<(), Reason>
    ensures { LineTaken line.now tables.old result tables.new }
{
    match ascii::byte(line, 0) {
        b'C' => cards::take(line, &mut tables.cards),
        b'G' => groups::take(line, &mut tables.cards),
        b'R' => rules::take(line, layout::card_count(&tables.cards), &mut tables.rules),
        _ => Err(Reason::NoForm),
    }
}

// Each line of a text, into empty tables, up to the first that is refused; a last one without its LF has no form.
pub(crate) fn take_lines(text: &[u8], tables: &mut Tables) -> Result<(), Refusal>
    requires { (length text.now ≤ text_limit) × (tables.old ≡ no_tables) }
    ensures { answer_of (tables_book tables.new) result ≡ opening text.now }
{
    // Counted by hand: each line is cut off what is left by `ascii::cut`; `split` of the library goes a byte a turn, which takes 13 % more.
    let mut number = 1;
    let mut rest = text;
    while let Some((line, after)) = ascii::cut(rest, b'\n') {
        take_line(line, tables).map_err(|reason| reason.at(number))?;
        number += 1;
        rest = after;
    }
    if !rest.is_empty() {
        return Err(Reason::NoForm.at(number));
    }
    Ok(())
}

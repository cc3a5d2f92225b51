// Card lines.
ghost use Rattle.std.specs.Prelude.{◌≡◌};
ghost use Rattle.model.specs.Lists.{any, eq_list};
ghost use Rattle.forms.specs.Numbers.{digits_in};
ghost use Rattle.rulebook.specs.View.{cards_of};
ghost use Rattle.rulebook.specs.inner.Lines.{CardTaken};

use crate::layout;
use crate::layout::CardTable;
use answers::Reason;
use forms::CardNumber;

// Whether a card of the table has the number's digits: the form that document 01 names, nested loops left by a label at the first digit that
// differs or at the equal card, which the flag tells.
fn is_known(number: CardNumber, cards: &CardTable) -> bool
    ensures { result ≡ any (eq_list (digits_in number)) (cards_of cards.now) }
{
    let count = usize::from(number.count);
    let mut known = false;
    'cards: for i in 0..layout::card_count(cards) {
        let digits = layout::digits(cards, i + 1);
        // All 19 places, so that the compiler unrolls the loop: up to the count alone takes 13 % more instructions to read 4 KB, 4.5 % for 16 KB.
        for (d, digit) in digits.iter().enumerate() {
            if (d < count) & (number.digits[d] != *digit) {
                continue 'cards;
            }
        }
        if layout::card_length(cards, i + 1) == number.count {
            known = true;
            break 'cards;
        }
    }
    known
}

// Questions 2 to 5.
pub(crate) fn take(line: &[u8], cards: &mut CardTable) -> Result<(), Reason>
    ensures { CardTaken line.now cards.old result cards.new }
{
    let line = forms::card_line(line).ok_or(Reason::NoForm)?;
    if limits::CARD_LIMIT <= layout::card_count(cards) {
        return Err(Reason::TooManyCards);
    }
    let number = line.number().ok_or(Reason::BadCardNumber)?;
    if is_known(number, cards) {
        return Err(Reason::CardRepeated);
    }
    layout::add_card(cards, number);
    Ok(())
}

// Card lines: `C digits` with a hyphen between two printed groups of digits.
ghost use Rattle.std.specs.Prelude.{◌≡◌, not, T, MatchOption, set};
ghost use Rattle.forms.specs.Numbers.{card_line_in, is_number_in};
ghost use Rattle.forms.specs.inner.Words.{word_in};

use crate::numbers::CardNumber;
use crate::{LEAST_DIGITS, MOST_DIGITS};

// What a card line says: how many digits it has, and the first 19 of them, zeros after the last. The engine has no heap, so the row is of
// fixed size.
#[derive(Clone, Copy)]
pub struct CardLine {
    pub count: usize,
    pub digits: [u8; MOST_DIGITS],
}

// Puts a digit at a place, if the row has that place: by index, since what std promises of `get_mut` leaves open what the row holds after a write.
fn put_digit(digits: &mut [u8; MOST_DIGITS], at: usize, d: u8)
    ensures { digits.new ≡ set digits.old at d }
{
    if at < MOST_DIGITS {
        digits[at] = d;
    }
}

// The number of bytes that are digits, with at most one hyphen between two of them: digits past the 19th are counted, not kept.
fn read_word(s: &[u8]) -> Option<CardLine>
    ensures { result ≡ word_in s.now }
{
    let mut digits = [0; MOST_DIGITS];
    let mut count = 0;
    // A hyphen needs a digit before it, and one after it: a flag, since by `split` at hyphens a group's digits are still put one by one, and an
    // empty group is asked apart.
    let mut after_digit = false;
    for x in s {
        if let Some(d) = ascii::digit(*x) {
            put_digit(&mut digits, count, d);
            count += 1;
            after_digit = true;
            continue;
        }
        if !after_digit | (*x != b'-') {
            return None;
        }
        after_digit = false;
    }
    after_digit.then_some(CardLine { count, digits })
}

// What a line that begins with C says, if it has the form.
#[tactic(auto, unfolding(model::specs::Reader::is_card_line, model::specs::Reader::card_read))]
pub fn card_line(line: &[u8]) -> Option<CardLine>
    ensures { result ≡ card_line_in line.now }
{
    let [_, b' ', word @ ..] = line else {
        return None;
    };
    read_word(word)
}

impl CardLine {
    // Question 4: its card number, if it has one, with the line's count and its row.
    pub fn number(self) -> Option<CardNumber>
        ensures { MatchOption result (T (not (is_number_in self))) (λ n. T (is_number_in self) × ((n.count ≡ self.count) × (n.digits ≡ self.digits))) }
    {
        let CardLine { count, digits } = self;
        if !(LEAST_DIGITS..=MOST_DIGITS).contains(&count) {
            return None;
        }
        // By `as`: it is at most 19, and `try_from` would make an error that cannot be.
        let number = CardNumber {
            count: count as u8,
            digits,
        };
        number.checks().then_some(number)
    }
}

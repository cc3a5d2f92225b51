// Card numbers.
ghost use Rattle.std.specs.Prelude.{◌≡◌, ◌≤◌};
ghost use Rattle.model.specs.Limits.{most_digits};
ghost use Rattle.model.specs.CardNumbers.{weighed, luhn};

use crate::MOST_DIGITS;

// So many digits, zeros after them: by `CardLine::number` 12 to 19, and the last one right. No `ArrayVec`: a table's row holds both as they are,
// and cards are compared over all 19 places.
#[derive(Clone, Copy)]
pub struct CardNumber {
    pub count: u8,
    pub digits: [u8; MOST_DIGITS],
    ghost few: { count ≤ most_digits },
}

// What a digit counts in the check sum, with so many digits to its right.
#[tactic(auto, unfolding(model::specs::CardNumbers::weighed, model::specs::CardNumbers::doubled))]
fn weigh(right: usize, d: u8) -> usize
    ensures { (result ≡ weighed right d) × (result ≤ 510) }
{
    let x = usize::from(d);
    if right % 2 != 1 {
        return x;
    }
    if 9 < 2 * x {
        return 2 * x - 9;
    }
    2 * x
}

impl CardNumber {
    ghost use Rattle.forms.specs.Numbers.{digits_in};

    // Whether the check digit is right: the Luhn formula.
    pub(crate) fn checks(self) -> bool
        ensures { result ≡ luhn (digits_in self) }
    {
        let n = usize::from(self.count);
        // A loop: by a chain, reversed and numbered, a digit takes five instructions more, 1.6 % of a call with 4 KB of rules.
        let mut sum = 0;
        for (i, d) in self.digits[..n].iter().enumerate() {
            sum += weigh(n - (i + 1), *d);
        }
        sum % 10 == 0
    }
}

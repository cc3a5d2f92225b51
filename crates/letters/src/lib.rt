// What the bytes of a rule text's line stand for: a kind, a variable, a name, a group, and the number m of a card.
//
// Each letter is matched on ranges, which is the form that document 01 names.

#![tactic(auto)]

mod names;

ghost use Rattle.std.specs.Prelude.{◌≡◌};
ghost use Rattle.letters.specs.Letters.{kind_in, variable_in, name_in, group_in, BeginsWithNumber};

pub use names::{Name, Variable};

// Kinds are numbered from 1.
const BEFORE_A: u8 = b'A' - 1;

// 1 to 16.
#[tactic(auto, unfolding(model::specs::Reader::kind_of))]
pub fn kind(x: u8) -> Option<u8>
    ensures { result ≡ kind_in x }
{
    match x {
        b'A'..=b'P' => Some(x - BEFORE_A),
        _ => None,
    }
}

// a to h.
#[tactic(auto, unfolding(model::specs::Reader::variable_of))]
pub fn variable(x: u8) -> Option<Variable>
    ensures { result ≡ variable_in x }
{
    match x {
        b'a'..=b'h' => Some(Variable { number: x - b'a' }),
        _ => None,
    }
}

// A variable, or `*`.
#[tactic(auto, using(crate::proofs::NameLaws::name_is, crate::proofs::NameLaws::no_name), unfolding(model::specs::Reader::name_of, model::specs::Reader::named))]
pub fn name(x: u8) -> Option<Name>
    ensures { result ≡ name_in x }
{
    match x {
        b'*' => Some(Name::Owner),
        _ => Some(Name::Variable(variable(x)?)),
    }
}

// 1 to 8.
#[tactic(auto, unfolding(model::specs::Reader::group_of))]
pub fn group(x: u8) -> Option<u8>
    ensures { result ≡ group_in x }
{
    match x {
        b'1'..=b'8' => Some(x - b'0'),
        _ => None,
    }
}

// The number m that a part of a line begins with, 1 to 99 without a leading zero, and what follows it.
pub fn number(part: &[u8]) -> Option<(u8, &[u8])>
    ensures { BeginsWithNumber part.now result }
{
    let [first @ b'1'..=b'9', rest @ ..] = part else {
        return None;
    };
    let tens = first - b'0';
    match rest {
        [second @ b'0'..=b'9', rest @ ..] => Some((tens * 10 + (second - b'0'), rest)),
        _ => Some((tens, rest)),
    }
}

// Rule lines: `R m K v`, then prices ` < w K y`, then conditions ` ? g z` or ` = z z`. What reads a part of a line hands on what follows it.
ghost use Rattle.std.specs.Prelude.{◌≡◌, ℕ, List, Bool};
ghost use Rattle.model.specs.Reader.{has_price, price_at, price_width, has_condition, condition_at, condition_width, has_head, rule_read, head_end};
ghost use Rattle.letters.specs.Letters.{Begins};
ghost use Rattle.forms.specs.Forms.{price_said, condition_said, head_said, rule_form_in};
ghost use Rattle.forms.specs.inner.Parts.{Leads};

use crate::{CONDITION_LIMIT, PRICE_LIMIT};
use letters::{Name, Variable};

// What a price says: the giver gives one token of the kind to the receiver.
#[derive(Clone, Copy)]
pub struct Price {
    pub giver: Variable,
    pub kind: u8,
    pub receiver: Name,
}

// What a condition says: a name is in a group, or two names have the same issuer.
#[derive(Clone, Copy)]
pub enum Condition {
    InGroup(u8, Name),
    SameIssuer(Name, Name),
}

// ` < w K y`, with w and y different.
#[tactic(auto, using(crate::proofs::Parts::no_price, crate::proofs::Parts::price_long, letters::proofs::NameLaws::absent))]
fn first_price(part: &[u8]) -> Option<(Price, &[u8])>
    ensures { Begins (has_price part.now 0) (price_said (price_at part.now 0)) price_width part.now result }
{
    let [b' ', b'<', b' ', w, b' ', k, b' ', y, rest @ ..] = part else {
        return None;
    };
    let giver = letters::variable(*w)?;
    let kind = letters::kind(*k)?;
    let receiver = letters::name(*y)?;
    let price = Price {
        giver,
        kind,
        receiver,
    };
    (Name::Variable(giver) != receiver).then_some((price, rest))
}

// ` ? g z` or ` = z z`.
#[tactic(auto, using(crate::proofs::Parts::no_condition, crate::proofs::Parts::condition_long, letters::proofs::NameLaws::absent))]
fn first_condition(part: &[u8]) -> Option<(Condition, &[u8])>
    ensures { Begins (has_condition part.now 0) (condition_said (condition_at part.now 0)) condition_width part.now result }
{
    match part {
        [b' ', b'?', b' ', g, b' ', z, rest @ ..] => {
            let group = letters::group(*g)?;
            let name = letters::name(*z)?;
            Some((Condition::InGroup(group, name), rest))
        }
        [b' ', b'=', b' ', y, b' ', z, rest @ ..] => {
            let first = letters::name(*y)?;
            let second = letters::name(*z)?;
            Some((Condition::SameIssuer(first, second), rest))
        }
        _ => None,
    }
}

// What a rule's head says, `R m K v`: the owner gives one token of the kind to the receiver.
#[derive(Clone, Copy)]
pub struct Head {
    pub owner: u8,
    pub kind: u8,
    pub receiver: Variable,
}

#[tactic(auto, using(crate::proofs::Parts::no_head, crate::proofs::Parts::no_number, letters::proofs::Numbers::inside))]
fn head_of(line: &[u8]) -> Option<(Head, &[u8])>
    ensures { Begins (has_head line.now) (head_said (rule_read line.now)) (head_end line.now) line.now result }
{
    let [_, b' ', rest @ ..] = line else {
        return None;
    };
    let (owner, rest) = letters::number(rest)?;
    let [b' ', k, b' ', v, rest @ ..] = rest else {
        return None;
    };
    let kind = letters::kind(*k)?;
    let receiver = letters::variable(*v)?;
    let head = Head {
        owner,
        kind,
        receiver,
    };
    Some((head, rest))
}

// The parts of one sort, N at most, that what is left of a line begins with, taken off it.
// What is left is lent, not handed on: the kit covers no result that has a type parameter's values beside a reference.
fn leading<T: Copy, F: Fn(&[u8]) -> Option<(T, &[u8])>, const N: usize>(
    rest: &mut &[u8],
    read: F,
) -> [Option<T>; N]
    requires { F.IsAlwaysCallable read }
    ensures { (there : List ℕ → Bool) (said : List ℕ → T) (width : ℕ)
        → ((part r : _) → F.post read part r → Begins (there part.now) (said part.now) width part.now r)
        → Leads there said width N rest.old.now result rest.new.now }
{
    let mut found = [None; N];
    // By number: of a write through `iter_mut` it stayed open what an array of a type parameter's values then holds; `array::from_fn` takes all N
    // turns, also past the first that reads nothing, and what is left must be handed from one turn to the next.
    for i in 0..N {
        let Some((said, after)) = read(rest) else {
            break;
        };
        found[i] = Some(said);
        *rest = after;
    }
    found
}

// A rule line's head, its prices and its conditions: arrays, since no heap holds them, of which the first None ends each.
#[derive(Clone, Copy)]
pub struct RuleForm {
    pub head: Head,
    pub prices: [Option<Price>; PRICE_LIMIT],
    pub conditions: [Option<Condition>; CONDITION_LIMIT],
}

pub fn rule_form(line: &[u8]) -> Option<RuleForm>
    ensures { result ≡ rule_form_in line.now }
{
    let (head, mut rest) = head_of(line)?;
    let prices = leading(&mut rest, first_price);
    let conditions = leading(&mut rest, first_condition);
    rest.is_empty().then_some(RuleForm {
        head,
        prices,
        conditions,
    })
}

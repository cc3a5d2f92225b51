// A decider of fairness for 01's book that takes nothing from the engine: definitions 3.5 and 3.7, followed by recursion.

#[derive(Clone, Copy, PartialEq, Eq)]
pub(crate) struct Transfer {
    pub(crate) giver: u8,
    pub(crate) kind: u8,
    pub(crate) receiver: u8,
}

// Three transfers at most; None is one that is not there, or was taken.
pub(crate) type Exchange = [Option<Transfer>; 3];

// Whose card a place in a price names.
#[derive(Clone, Copy)]
enum Place {
    Owner,
    A,
    B,
}

#[derive(Clone, Copy)]
enum Condition {
    // = a *
    OwnersIssuer,
    // ? 1 b
    InGroup1,
}

// A rule with its one price: from a card, tokens of a kind, to a card.
#[derive(Clone, Copy)]
struct Rule {
    owner: u8,
    kind: u8,
    price: (Place, u8, Place),
    condition: Option<Condition>,
}

// The cards of an approval.
#[derive(Clone, Copy)]
struct Cards {
    owner: u8,
    a: u8,
    b: u8,
}

// What is left once heads and prices are claimed: of the exchange for the heads and prices of each card, and of the exchange for the prices
// of all cards together.
#[derive(Clone, Copy)]
struct Left {
    own: [Exchange; 3],
    free: Exchange,
}

// The book's rules.
fn rules() -> [Rule; 8] {
    use Condition::{InGroup1, OwnersIssuer};
    use Place::{A, B, Owner};
    [
        Rule::new(1, 1, (B, 3, Owner), None),
        Rule::new(2, 2, (B, 1, Owner), None),
        Rule::new(3, 3, (B, 2, Owner), None),
        Rule::new(2, 2, (A, 4, Owner), Some(OwnersIssuer)),
        Rule::new(3, 4, (B, 2, Owner), None),
        Rule::new(1, 2, (A, 4, B), Some(InGroup1)),
        Rule::new(1, 1, (B, 4, Owner), None),
        Rule::new(2, 4, (A, 1, Owner), None),
    ]
}

// The issuer prefix: a card's first six digits.
fn issuer(card: u8) -> u32 {
    match card {
        1 => 700_056,
        _ => 700_012,
    }
}

fn in_group_1(card: u8) -> bool {
    card == 2
}

impl Cards {
    fn at(self, place: Place) -> u8 {
        match place {
            Place::Owner => self.owner,
            Place::A => self.a,
            Place::B => self.b,
        }
    }

    fn meet(self, condition: Condition) -> bool {
        match condition {
            Condition::OwnersIssuer => issuer(self.a) == issuer(self.owner),
            Condition::InGroup1 => in_group_1(self.b),
        }
    }
}

impl Rule {
    fn new(owner: u8, kind: u8, price: (Place, u8, Place), condition: Option<Condition>) -> Rule {
        Rule {
            owner,
            kind,
            price,
            condition,
        }
    }

    // The price of the approval with this head and this card for b, if there is this approval.
    fn price(self, head: Transfer, b: u8) -> Option<Transfer> {
        let owner = head.giver;
        let a = head.receiver;
        let cards = Cards { owner, a, b };
        let (from, kind, to) = self.price;
        let giver = cards.at(from);
        let receiver = cards.at(to);
        let heads = self.owner == owner && self.kind == head.kind && owner != a;
        let pays = giver != receiver && giver != owner;
        let holds = self.condition.is_none_or(|condition| cards.meet(condition));
        (heads && pays && holds).then_some(Transfer {
            giver,
            kind,
            receiver,
        })
    }

    // With each card for b.
    fn prices(self, head: Transfer) -> [Option<Transfer>; 3] {
        [1, 2, 3].map(|b| self.price(head, b))
    }
}

// One such transfer taken away, if there is one.
fn take(from: Exchange, wanted: Transfer) -> Option<Exchange> {
    let at = from.iter().position(|left| *left == Some(wanted))?;
    let mut left = from;
    left[at] = None;
    Some(left)
}

impl Left {
    // Less the head and the price of an approval of the head's giver.
    fn claim(self, head: Transfer, price: Transfer) -> Option<Left> {
        let mut left = self;
        let card = usize::from(head.giver).checked_sub(1)?;
        let own = left.own.get_mut(card)?;
        *own = take(take(*own, head)?, price)?;
        left.free = take(left.free, price)?;
        Some(left)
    }
}

// Whether the cards accept their transfers among these, of an exchange of which so much is left.
fn accepted(heads: &[Option<Transfer>], left: Left) -> bool {
    let Some((first, later)) = heads.split_first() else {
        return true;
    };
    let Some(head) = *first else {
        return accepted(later, left);
    };
    // Tried by `any`: where the recursion goes through a closure, it stays open that the closure may be called at each turn.
    for price in rules().iter().flat_map(|rule| rule.prices(head)).flatten() {
        if let Some(rest) = left.claim(head, price)
            && accepted(later, rest)
        {
            return true;
        }
    }
    false
}

// Whether the exchange is fair.
pub(crate) fn fair(x: Exchange) -> bool {
    let left = Left {
        own: [x; 3],
        free: x,
    };
    accepted(&x, left)
}

// Issuing, redeeming and the holding query over the 512 holdings: questions 8 to 11.
//
// The holdings are lent and changed in place, so that a call copies none; a refused call changes none. The number of declared cards comes
// before them: the tables have it, an engine or a host the holdings, and a struct of both would copy or borrow them for each call.

#![tactic(auto)]

ghost use Rattle.std.specs.Prelude.{◌≡◌, ◌*◌, ◌<◌, min, leb, IfOk};
ghost use Rattle.model.specs.Lists.{every};
ghost use Rattle.model.specs.Limits.{card_limit, kind_count, holding_count};
ghost use Rattle.model.specs.Grammar.{is_kind};
ghost use Rattle.model.specs.Holdings.{total};
ghost use Rattle.model.specs.Calls.{issue, redeem, query};
ghost use Rattle.accounts.specs.View.{place_of, state_from};
ghost use Rattle.accounts.specs.Answered.{AnsweredFor};
ghost use Rattle.accounts.specs.inner.Found.{found};

use answers::{Reason, Reply, Told};

// Constants are widened by `as`: they cannot call `From`.
const KINDS: usize = limits::KIND_COUNT as usize;

// One holding for each of the cards and each of the kinds that there are.
pub const HOLDING_COUNT: usize = limits::CARD_LIMIT as usize * KINDS;

// An array, since the engine has no heap.
pub type Holdings = [u32; HOLDING_COUNT];

// A card and a kind, of any numbers: whose tokens, and of which kind.
#[derive(Clone, Copy, Debug, PartialEq, Eq, Hash)]
pub struct Account {
    pub card: u32,
    pub kind: u32,
}

// Of bytes, as a transfer has them.
impl From<(u8, u8)> for Account {
    ghost from_gives = { λ pair account. account ≡ record { card = pair.0; kind = pair.1 } };

    fn from((card, kind): (u8, u8)) -> Account {
        Account {
            card: u32::from(card),
            kind: u32::from(kind),
        }
    }
}

impl Account {
    // Where the card's holding of the kind is. It cannot fail, as settling asks it of what has been judged: 0 is taken for 1. By `as`, here and
    // in `kind_sum`: 32 bits have no `From` to a size.
    pub fn place(self) -> usize
        ensures { result ≡ place_of self.card self.kind }
    {
        (self.card as usize).saturating_sub(1) * KINDS + (self.kind as usize).saturating_sub(1)
    }

    // Its place, where questions 8 and 9 are met.
    #[tactic(auto, unfolding(crate::specs::inner::Found::found))]
    fn found(self, declared: u8) -> Result<usize, Reason>
        ensures place { result ≡ found declared self.card self.kind }
        ensures within { IfOk result (λ at. at < holding_count) }
    {
        if !(1..=u32::from(declared.min(limits::CARD_LIMIT))).contains(&self.card) {
            return Err(Reason::CardUndeclared);
        }
        if !is_kind(self.kind) {
            return Err(Reason::KindUnknown);
        }
        Ok(self.place())
    }
}

fn is_kind(number: u32) -> bool
    ensures { result ≡ is_kind number }
{
    (1..=u32::from(limits::KIND_COUNT)).contains(&number)
}

// Where the holdings of the undeclared cards begin, of any number of declared ones.
pub fn declared_end(declared: u8) -> usize
    ensures { result ≡ min declared card_limit * kind_count }
{
    usize::from(declared.min(limits::CARD_LIMIT)) * KINDS
}

// Whether each of the holdings is at most so much. All are asked, so that the compiler asks several at once: `all`, which stops, takes 1,540
// instructions for 778, of 512 holdings.
pub fn at_most(holdings: &[u32], most: u32) -> bool
    ensures { result ≡ every (λ held. leb held most) holdings.now }
{
    holdings
        .iter()
        .fold(true, |all, held| all & (*held <= most))
}

// The kind's sum over all cards; of a number that is no kind it is 0, since no card holds any.
pub fn kind_sum(holdings: &Holdings, kind: u32) -> u64
    ensures { (result ≡ total (state_from holdings.now) kind) × (result < 1099511627776) }
{
    if !is_kind(kind) {
        return 0;
    }
    let column = kind as usize - 1;
    holdings
        .as_chunks::<KINDS>()
        .0
        .iter()
        .map(|row| u64::from(row[column]))
        .sum()
}

pub fn issue(declared: u8, holdings: &mut Holdings, account: Account, count: u32) -> Reply
    ensures { AnsweredFor declared holdings.old (issue account.card account.kind count) result holdings.new }
{
    let place = account.found(declared)?;
    let sum = kind_sum(holdings, account.kind) + u64::from(count);
    if u64::from(limits::SUM_LIMIT) < sum {
        return Err(Reason::SumExceeded.into());
    }
    holdings[place] += count;
    Ok(Told::Done)
}

pub fn redeem(declared: u8, holdings: &mut Holdings, account: Account, count: u32) -> Reply
    ensures { AnsweredFor declared holdings.old (redeem account.card account.kind count) result holdings.new }
{
    let place = account.found(declared)?;
    holdings[place] = holdings[place]
        .checked_sub(count)
        .ok_or(Reason::HoldingShort)?;
    Ok(Told::Done)
}

pub fn holding(declared: u8, holdings: &Holdings, account: Account) -> Reply
    ensures { AnsweredFor declared holdings.now (query account.card account.kind) result holdings.now }
{
    let place = account.found(declared)?;
    Ok(Told::Holding(holdings[place]))
}

// All exchanges of one, two and three transfers over 01's book: whether some chain settles each, beside a decider of fairness.
ghost use Rattle.std.specs.Prelude.{◌≤◌, length};

use crate::fairness::{self, Exchange, Transfer};
use accounts::Account;
use answers::{Reason, Refusal};
use engine::Engine;

// An exchange that an engine is asked to settle.
#[derive(Clone, Copy)]
struct Question<'a> {
    engine: Engine,
    exchange: &'a [[u8; 3]],
    ghost few: { length exchange.now ≤ 3 },
}

// What the two sides say of an exchange.
#[derive(Clone, Copy)]
struct Verdict {
    fair: bool,
    settled: bool,
}

// How many exchanges there are, how many of them are fair, and on how many the two sides disagree. No list of verdicts, which takes memory.
#[derive(Clone, Copy)]
pub(crate) struct Counts {
    pub(crate) exchanges: u32,
    pub(crate) fair: u32,
    pub(crate) disagreements: u32,
}

// 01's book, whose rules `fairness` has as a table.
fn book() -> Engine {
    engine::open(ring_book::BOOK).engine
}

fn enough(engine: Engine, kind: u32) -> Engine {
    (1..=3).fold(
        engine,
        |next, card| engine::issue(next, Account { card, kind }, 3).engine,
    )
}

// An engine whose cards hold all that three transfers can ask.
fn ample() -> Engine {
    (1..=4).fold(book(), enough)
}

impl From<Transfer> for [u8; 3] {
    fn from(transfer: Transfer) -> [u8; 3] {
        [transfer.giver, transfer.kind, transfer.receiver]
    }
}

impl Question<'_> {
    // The refusal of these records, one for each transfer, if they are refused.
    fn refusal(&self, proof: &[[u8; 12]; 3]) -> Option<Refusal> {
        let records = &proof[..self.exchange.len()];
        let called = engine::settle(
            self.engine,
            self.exchange.as_flattened(),
            records.as_flattened(),
        );
        called.reply.err()
    }

    // Whether some choice of the record with this index and of the later ones settles the exchange.
    fn settles(&self, which: usize, proof: [[u8; 12]; 3]) -> bool {
        let Some([_, _, a]) = self.exchange.get(which) else {
            return false;
        };
        // `as` cuts nothing: three transfers at most
        let record = which as u8 + 1;
        let next = if which + 1 == self.exchange.len() {
            0
        } else {
            record + 1
        };
        // Loops, as in `fairness`: where the recursion goes through a closure, it stays open that the closure may be called at each turn.
        'rules: for rule in 1..=8 {
            for b in 0..=3 {
                let mut chosen = proof;
                chosen[which] = [next, record, rule, 0, *a, b, 0, 0, 0, 0, 0, 0];
                let Some(refusal) = self.refusal(&chosen) else {
                    return true;
                };
                // where no card can help the rule, the next choice is the next rule's
                if refusal == Reason::WrongRule.at(u32::from(record)) {
                    continue 'rules;
                }
                // a refusal at a later record says that this one is good
                if u32::from(record) < refusal.place && self.settles(which + 1, chosen) {
                    return true;
                }
            }
        }
        false
    }
}

// The transfer with a number below 24; 24 stands for none, which so comes last in each order.
fn transfer(number: u8) -> Option<Transfer> {
    let giver = number / 8 + 1;
    let kind = number / 2 % 4 + 1;
    let receiver = (giver + number % 2) % 3 + 1;
    (number < 24).then_some(Transfer {
        giver,
        kind,
        receiver,
    })
}

fn compare(engine: Engine, exchange: Exchange) -> Verdict {
    // As many as there are: those that are none are last, so that a part of the array is the exchange.
    let transfers = exchange.map(|transfer| transfer.map_or([0; 3], From::from));
    let count = exchange
        .iter()
        .filter(|transfer| transfer.is_some())
        .count();
    let question = Question {
        engine,
        exchange: &transfers[..count],
    };
    Verdict {
        fair: fairness::fair(exchange),
        settled: question.settles(0, [[0; 12]; 3]),
    }
}

impl Counts {
    // Saturating, so that no bound is carried through the loops: some three thousand exchanges come near none.
    fn add(&mut self, verdict: Verdict) {
        let Verdict { fair, settled } = verdict;
        self.exchanges = self.exchanges.saturating_add(1);
        self.fair = self.fair.saturating_add(u32::from(fair));
        self.disagreements = self
            .disagreements
            .saturating_add(u32::from(fair != settled));
    }
}

// Of each exchange: a multiset of transfers is tried in one order, with those that are none at its end. By number, since each loop begins where
// the one around it is: an array of the transfers would be cut by the same numbers.
pub(crate) fn total() -> Counts {
    let engine = ample();
    let mut counts = Counts {
        exchanges: 0,
        fair: 0,
        disagreements: 0,
    };
    for i in 0..=23 {
        for j in i..=24 {
            for k in j..=24 {
                counts.add(compare(engine, [i, j, k].map(transfer)));
            }
        }
    }
    counts
}

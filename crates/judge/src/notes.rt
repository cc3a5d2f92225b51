// What is noted along a chain of records: which transfers are claimed and what is asked as a price; and question 21.
ghost use Rattle.std.specs.Prelude.{◌≡◌, [], ◌∷◌, ◌||◌, ◌≤◌, leb, option_map};
ghost use Rattle.model.specs.Transfers.{count};
ghost use Rattle.model.specs.Limits.{price_limit};
ghost use Rattle.transfers.specs.View.{list_size, transfer_of, transfers_of};
ghost use Rattle.judge.specs.inner.Rows.{prices_asked};
ghost use Rattle.judge.specs.inner.Records.{claimable};
ghost use Rattle.judge.specs.inner.Counts.{Room, all_met, asked_once, is_paid};
ghost use Rattle.judge.specs.inner.Notes.{Blank, Asked, Notable, Noted};

use crate::approval::Approval;
use crate::exchange::Exchange;
use crate::gifts::Gifts;
use crate::proof::Record;
use rulebook::layout;
use rulebook::layout::RuleTable;
use transfers::{LIST_SIZE, Transfer, read_list, transfer_at};

// Whether a transfer is in the list as often as it is asked. Each of them is so that is asked at most once.
fn is_met(list: &[Transfer], t: Transfer, asked: u8) -> bool
    ensures { result ≡ (leb asked 1 || leb asked (count (transfer_of t) (transfers_of list.now))) }
{
    asked <= 1 || usize::from(asked) <= transfers::count(list, t)
}

#[derive(Drop)]
pub(crate) struct Notes<'a> {
    gifts: Gifts<'a>,
    // Marks and counts are two arrays, not one of pairs: question 21 passes over the counts alone, as a slice of numbers.
    pub(crate) claimed: [bool; LIST_SIZE],
    // How often each transfer is asked, counted at the first of equal ones.
    asked: [u8; LIST_SIZE],
    // Whether a price is asked that is no transfer. A flag: `asked` as an Option, None then, would need a match before each count.
    missing: bool,
}

impl<'a> Notes<'a> {
    pub(crate) fn new(exchange: Exchange<'a>) -> Notes<'a>
        ensures { Blank exchange.entry result }
    {
        Notes {
            gifts: Gifts::of(exchange),
            claimed: [false; LIST_SIZE],
            asked: [0; LIST_SIZE],
            missing: false,
        }
    }

    // Question 15: the transfer of a number from 1, if it is one of the exchange and not claimed yet.
    pub(crate) fn claimable(&self, claim: u8) -> Option<Transfer>
        ensures { option_map transfer_of result ≡ claimable self.now.claimed self.now.gifts.exchange.bytes.now claim }
    {
        let k = usize::from(claim).checked_sub(1)?;
        let claimed = transfer_at(self.gifts.exchange.bytes, k)?;
        if self.claimed[k] {
            return None;
        }
        Some(claimed)
    }

    // A price: one more at the first transfer that it is.
    fn ask(&mut self, t: Transfer)
        requires { Room self.old.gifts.exchange.bytes.now 1 self.old.asked }
        ensures { Asked (transfer_of t ∷ []) self.old self.new × (self.new.claimed ≡ self.old.claimed) }
    {
        match self.gifts.find(t) {
            Some(j) => self.asked[j] += 1,
            None => self.missing = true,
        }
    }

    fn ask_prices(&mut self, approval: Approval)
        requires { Room self.old.gifts.exchange.bytes.now price_limit self.old.asked }
        ensures { Asked (prices_asked approval.entry.row.bytes.now approval.entry.rec.bytes.now) self.old self.new × (self.new.claimed ≡ self.old.claimed) }
    {
        for price in approval.row.prices() {
            self.ask(approval.asked(price));
        }
    }

    // A record that meets its questions claims its transfer and asks its rule's prices.
    pub(crate) fn note(&mut self, rules: &RuleTable, rec: Record)
        requires { Notable rec.bytes.now self.old }
        ensures { Noted rules.now rec.entry.bytes.now self.old self.new }
    {
        self.claimed[usize::from(rec.claim()) - 1] = true;
        let row = layout::row_at(rules, rec.rule());
        self.ask_prices(Approval { row, rec });
    }

    // Whether each of the first n transfers is asked at most once.
    fn asked_once(&self, n: usize) -> bool
        requires { n ≤ list_size }
        ensures { result ≡ asked_once self.now.asked n }
    {
        self.asked[..n].iter().all(|asked| *asked <= 1)
    }

    // Whether each transfer of the exchange occurs at least as often as it is asked: counted in the list that the exchange is read into.
    fn all_met(&self) -> bool
        ensures { result ≡ all_met self.now.gifts.exchange.bytes.now self.now.asked }
    {
        let n = self.gifts.exchange.len();
        let list = read_list(self.gifts.exchange.bytes);
        let transfers = &list[..n];
        let mut counts = transfers.iter().zip(&self.asked);
        counts.all(|(t, asked)| is_met(transfers, *t, *asked))
    }

    // Question 21, the last. A list is read only where a transfer is asked twice.
    pub(crate) fn is_paid(&self) -> bool
        ensures { result ≡ is_paid self.now.gifts.exchange.bytes.now self.now.asked self.now.missing }
    {
        !self.missing && (self.asked_once(self.gifts.exchange.len()) || self.all_met())
    }
}

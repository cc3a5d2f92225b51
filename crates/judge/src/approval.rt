// A rule's row under the cards of a record, which is an approval where questions 17 to 19 are met. It is without the table of cards, since
// a note of prices makes one from the rules alone. Contracts name the bytes of its row and record: the definitions are over these.
ghost use Rattle.std.specs.Prelude.{◌≡◌};
ghost use Rattle.transfers.specs.View.{transfer_of};
ghost use Rattle.rulebook.specs.Rows.{price_of};
ghost use Rattle.judge.specs.inner.Rows.{card_named, asked_by};

use crate::proof::Record;
use letters::Name;
use rulebook::layout::{Entry, Row, price_of};
use transfers::Transfer;

#[derive(Clone, Copy)]
pub(crate) struct Approval<'a> {
    pub(crate) row: Row<'a>,
    pub(crate) rec: Record<'a>,
}

impl<'a> Approval<'a> {
    // The card of a name.
    pub(crate) fn card(self, name: Name) -> u8
        ensures { result ≡ card_named self.entry.row.bytes.now self.entry.rec.bytes.now name }
    {
        match name {
            Name::Variable(v) => self.rec.card(v),
            Name::Owner => self.row.owner(),
        }
    }

    // The transfer that a price asks.
    pub(crate) fn asked(self, price: &Entry) -> Transfer
        ensures { transfer_of result ≡ asked_by self.entry.row.bytes.now self.entry.rec.bytes.now (price_of price.now) }
    {
        let price = price_of(price);
        Transfer {
            giver: self.rec.card(price.giver),
            kind: price.kind,
            receiver: self.card(price.receiver),
        }
    }
}

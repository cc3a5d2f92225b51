// Where a transfer is in an exchange.
ghost use Rattle.std.specs.Prelude.{◌≡◌};
ghost use Rattle.transfers.specs.View.{transfer_count, transfer_of};
ghost use Rattle.judge.specs.inner.Counts.{FirstGifts, FirstAt};

use crate::exchange::Exchange;
use transfers::Transfer;

// The first transfer that each card gives, or the number of transfers for a card that gives none: a search from there on meets no transfer,
// so that no card needs a case of its own. Places by `as`: each is 32 at most, and a `try_from` would have to be unwrapped.
fn first_gifts(exchange: Exchange) -> [u8; 256]
    ensures { FirstGifts exchange.entry.bytes.now (transfer_count exchange.entry.bytes.now) result }
{
    let triples = exchange.triples();
    let mut firsts = [triples.len() as u8; 256];
    for (i, triple) in triples.iter().enumerate() {
        let giver = usize::from(Transfer::from(triple).giver);
        firsts[giver] = firsts[giver].min(i as u8);
    }
    firsts
}

// An exchange with each card's first gift. A transfer is sought from its giver's first on, so that an exchange in which each card gives one
// is not walked for each price.
#[derive(Drop)]
pub(crate) struct Gifts<'a> {
    pub(crate) exchange: Exchange<'a>,
    firsts: [u8; 256],
    ghost gifts: { FirstGifts exchange.bytes.now (transfer_count exchange.bytes.now) firsts },
}

impl<'a> Gifts<'a> {
    pub(crate) fn of(exchange: Exchange<'a>) -> Gifts<'a>
        ensures { result.exchange.bytes.now ≡ exchange.entry.bytes.now }
    {
        Gifts {
            exchange,
            firsts: first_gifts(exchange),
        }
    }

    // The first place of a transfer, from 0.
    pub(crate) fn find(&self, t: Transfer) -> Option<usize>
        ensures { FirstAt self.now.exchange.bytes.now (transfer_of t) result }
    {
        let first = usize::from(self.firsts[usize::from(t.giver)]);
        let rest = &self.exchange.triples()[first..];
        rest.iter()
            .position(|triple| t == Transfer::from(triple))
            .map(|i| first + i)
    }
}

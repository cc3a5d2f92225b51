// The transfers of an exchange: read, compared and counted; question 13.

#![tactic(auto)]

ghost use Rattle.std.specs.Prelude.{◌≡◌, option_map, slice_get};
ghost use Rattle.model.specs.Lists.{first_failing};
ghost use Rattle.model.specs.Transfers.{exchange_of};
ghost use Rattle.model.specs.Transfers as model;
ghost use Rattle.transfers.specs.View.{transfer_of, transfers_of, told, Listed};
ghost use Rattle.model.specs.Fairness.{is_proper_of};

use limits::{EXCHANGE_LIMIT, TRANSFER_SIZE};

// The most transfers that an exchange may have.
pub const LIST_SIZE: usize = EXCHANGE_LIMIT / TRANSFER_SIZE;

// The giver gives the receiver one token of the kind.
#[derive(Clone, Copy, Debug, Default, PartialEq, Eq, Hash)]
pub struct Transfer {
    pub giver: u8,
    pub kind: u8,
    pub receiver: u8,
}

// Giver, kind and receiver, as they stand in an exchange.
impl From<&[u8; TRANSFER_SIZE]> for Transfer {
    ghost use Rattle.std.specs.Prelude.{◌≡◌};
    ghost use Rattle.model.specs.Transfers.{transfer_at};
    ghost use Rattle.transfers.specs.View.{transfer_of};

    ghost from_gives = { λ triple t. transfer_of t ≡ transfer_at triple.now 0 };

    fn from(triple: &[u8; TRANSFER_SIZE]) -> Transfer {
        let [giver, kind, receiver] = *triple;
        Transfer {
            giver,
            kind,
            receiver,
        }
    }
}

// Transfer i of the exchange, from 0.
pub fn transfer_at(exchange: &[u8], i: usize) -> Option<Transfer>
    ensures { option_map transfer_of result ≡ slice_get (exchange_of exchange.now) i }
{
    let (triples, _) = exchange.as_chunks::<TRANSFER_SIZE>();
    triples.get(i).map(Transfer::from)
}

// Question 13 of one transfer.
fn is_proper(declared: u8, t: Transfer) -> bool
    ensures { result ≡ is_proper_of declared (transfer_of t) }
{
    (limits::is_within(t.giver, declared) & limits::is_within(t.receiver, declared))
        & ((t.giver != t.receiver) & limits::is_within(t.kind, limits::KIND_COUNT))
}

// The number, from 1, of the first transfer that question 13 refuses.
pub fn first_improper(declared: u8, exchange: &[u8]) -> Option<usize>
    ensures { result ≡ told (first_failing (is_proper_of declared) 1 (exchange_of exchange.now)) }
{
    let (triples, _) = exchange.as_chunks::<TRANSFER_SIZE>();
    triples
        .iter()
        .position(|triple| !is_proper(declared, Transfer::from(triple)))
        .map(|i| i + 1)
}

// The exchange's first 32 transfers, then transfers of zeros. The places are counted, since `array::from_fn` would read all 32: judging
// four transfers of which one is asked twice then takes 24 % more instructions. No `ArrayVec`: it is filled with defaults too, and has a
// length beside its places.
pub fn read_list(exchange: &[u8]) -> [Transfer; LIST_SIZE]
    ensures { Listed exchange.now result }
{
    let (triples, _) = exchange.as_chunks::<TRANSFER_SIZE>();
    let n = triples.len().min(LIST_SIZE);
    let mut list = [Transfer::default(); LIST_SIZE];
    // By places: what std promises of `list.iter_mut().zip(..)` leaves open what the list holds after the loop.
    for (i, triple) in triples[..n].iter().enumerate() {
        list[i] = Transfer::from(triple);
    }
    list
}

// How often the transfer is in the list, which is lent as a slice of structs.
pub fn count(list: &[Transfer], t: Transfer) -> usize
    ensures { result ≡ model.count (transfer_of t) (transfers_of list.now) }
{
    list.iter().filter(|u| t == **u).count()
}

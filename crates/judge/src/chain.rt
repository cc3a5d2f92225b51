// The chain of records from record 1, each question asked with a note of what was claimed, then question 21.
ghost use Rattle.judge.specs.inner.Parts.{Recorded, Follows};

use crate::exchange::Exchange;
use crate::notes::Notes;
use crate::proof::{RECORD_SIZE, Record};
use crate::records::question;
use answers::{Reason, Refusal};
use rulebook::Tables;

pub(crate) fn follow(tables: &Tables, exchange: Exchange, proof: &[u8]) -> Result<(), Refusal>
    requires { Recorded proof.now }
    ensures { Follows tables.now exchange.entry.bytes.now proof.now result }
{
    let n = exchange.len();
    let (records, _) = proof.as_chunks::<RECORD_SIZE>();
    let mut notes = Notes::new(exchange);
    let mut next: u8 = 1;
    // Counted down, not indexed: a record is asked how many transfers are left after it, and the chain says which record is next.
    for left in (0..n).rev() {
        let rec = Record::at(records, next);
        let asked = question(tables, &notes, rec, left, records.len());
        let place = u32::from(next);
        asked.map_err(|reason| reason.at(place))?;
        notes.note(&tables.rules, rec);
        next = rec.next();
    }
    if !notes.is_paid() {
        return Err(Reason::PriceUnpaid.into());
    }
    Ok(())
}

// An exchange and its proof judged over a rulebook's two tables: questions 12 to 21 of document 01.
// Modules: `sizes` asks 12 and 14 (crate transfers 13), `notes` 15 and 21, `records` 16 and 20, `variables` 17, `prices` 18, `conditions` 19;
// `chain` takes the records (`proof`) in turn, each with its rule as an `approval`.
//
// The two tables are lent. Any value of them is taken: counts past their limit are cut to it.

#![tactic(auto)]

mod approval;
mod chain;
mod conditions;
mod exchange;
mod gifts;
mod notes;
mod prices;
mod proof;
mod records;
mod sizes;
mod variables;

ghost use Rattle.judge.specs.Judges.{Judges};

use answers::{Reason, Refusal};
use exchange::Exchange;
use limits::{EXCHANGE_LIMIT, PROOF_LIMIT, TRANSFER_SIZE};
use rulebook::Tables;
use rulebook::layout::card_count;

// By `as`: a constant calls no From.
const VARIABLE_COUNT: usize = limits::VARIABLE_COUNT as usize;

// The first question that the exchange and its proof do not meet, with its place, or done.
pub fn judge(tables: &Tables, exchange: &[u8], proof: &[u8]) -> Result<(), Refusal>
    ensures { Judges tables.now exchange.now proof.now result }
{
    if !sizes::is_sized(exchange, TRANSFER_SIZE, EXCHANGE_LIMIT) {
        return Err(Reason::ExchangeSize.into());
    }
    if let Some(bad) = transfers::first_improper(card_count(&tables.cards), exchange) {
        // By `as`: a place is 32 at most, and a `try_from` would have to be unwrapped.
        return Err(Reason::BadTransfer.at(bad as u32));
    }
    if !sizes::is_sized(proof, proof::RECORD_SIZE, PROOF_LIMIT) {
        return Err(Reason::ProofSize.into());
    }
    chain::follow(tables, Exchange { bytes: exchange }, proof)
}

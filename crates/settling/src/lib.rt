// Settling over the 512 holdings: an exchange that is judged fair is covered or not, and moves all its tokens or none.

#![tactic(auto)]

ghost use Rattle.settling.specs.Settles.{Settles};
ghost use Rattle.settling.specs.inner.Finish.{Judged, Finished};

mod moves;

use accounts::Holdings;
use answers::{Reason, Reply, Told};
use rulebook::Tables;
use rulebook::layout::card_count;

// Questions 22 and 23, and the move, of an exchange that passes questions 12 to 21. The holdings are written once, when all is moved.
fn finish(declared: u8, holdings: &mut Holdings, exchange: &[u8]) -> Result<(), Reason>
    requires { Judged declared exchange.now }
    ensures { Finished declared holdings.old exchange.now result holdings.new }
{
    let mut next = *holdings;
    moves::add_receipts(&mut next, exchange);
    moves::take_gifts(&mut next, exchange)?;
    if !moves::limited(declared, &next) {
        return Err(Reason::HoldingExceeded);
    }
    *holdings = next;
    Ok(())
}

// Questions 12 to 23 of an exchange and its proof, over a rulebook's tables, and the move. Holdings, exchange and proof are three arguments, as
// document 01 and the C interface name them: no fact is of two of them, so that a struct would only be taken apart again.
pub fn settle(tables: &Tables, holdings: &mut Holdings, exchange: &[u8], proof: &[u8]) -> Reply
    ensures { Settles tables.now holdings.old exchange.now proof.now result holdings.new }
{
    judge::judge(tables, exchange, proof)?;
    finish(card_count(&tables.cards), holdings, exchange)?;
    Ok(Told::Done)
}

// The till host's one call: rule text, holdings, exchange and proof in, a number out; no state is kept between calls. The crate till_c exports
// it to C.

#![tactic(auto)]

ghost use Rattle.till.specs.Tills.{Tills};
ghost use Rattle.till.specs.inner.Parts.{SettlesOver, Replies};

mod holdings;

use answers::Reply;
use rulebook::Tables;
use rulebook::layout::card_count;

// Question 24, then 12 to 23, over a rulebook's tables. The move is made on a copy, which is written back where all is met.
fn settle_over(tables: &Tables, holdings: &mut [u32], exchange: &[u8], proof: &[u8]) -> Reply
    ensures { SettlesOver tables.now holdings.old exchange.now proof.now result holdings.new }
{
    let mut next = *holdings::accepted(card_count(&tables.cards), holdings)?;
    let told = settling::settle(tables, &mut next, exchange, proof)?;
    holdings.copy_from_slice(&next);
    Ok(told)
}

// Questions 1 to 7, and then those over the text's tables.
fn settle(text: &[u8], holdings: &mut [u32], exchange: &[u8], proof: &[u8]) -> Reply
    ensures { Replies text.now holdings.old exchange.now proof.now result holdings.new }
{
    let tables = rulebook::read(text)?;
    settle_over(&tables, holdings, exchange, proof)
}

// 0, or the number of the first question that is answered no: 1 to 7, 24, 12 to 23. The holdings are rewritten only on 0. The four parameters,
// here and above, are those of the C interface.
pub fn thawcroft_settle(text: &[u8], holdings: &mut [u32], exchange: &[u8], proof: &[u8]) -> u32
    ensures { Tills text.now holdings.old exchange.now proof.now result holdings.new }
{
    u32::from(answers::refusal_number(settle(text, holdings, exchange, proof)))
}

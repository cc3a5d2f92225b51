// The engine: the tables of a rule text and the holdings, by value, and the calls on it.
//
// Each call takes any engine and any arguments, and returns its answer and the engine afterwards; a refused call returns the engine
// that it was given.

#![tactic(auto)]

ghost use Rattle.model.specs.Calls.{issue, redeem, query, settle};
ghost use Rattle.engine.specs.Contract.{Opens, Answers};

use accounts::{Account, Holdings};
use answers::{Answer, Reply};
use rulebook::Tables;
use rulebook::layout::card_count;

// Card m's holding of kind k is at (m - 1) * 16 + k - 1; the tables are those that a text is read into.
#[derive(Clone, Copy)]
pub struct Engine {
    pub holdings: Holdings,
    pub tables: Tables,
}

// No Result: a refused text has an engine too, one without cards, and document 01 lets calls be made on it.
#[derive(Clone, Copy)]
pub struct Opened {
    pub answer: Answer,
    pub engine: Engine,
}

#[derive(Clone, Copy)]
pub struct Called {
    pub reply: Reply,
    pub engine: Engine,
}

pub fn open(text: &[u8]) -> Opened
    ensures { Opens text.now result.answer result.engine }
{
    let (answer, tables) = match rulebook::read(text) {
        Ok(tables) => (Ok(()), tables),
        Err(refusal) => (Err(refusal), Tables::empty()),
    };
    Opened {
        answer,
        engine: Engine {
            holdings: [0; 512],
            tables,
        },
    }
}

// The calls have one shape. Tried: one function that takes a closure over the holdings copies the engine once more; an issue then takes
// 1,656 instructions for 1,060.
pub fn issue(mut engine: Engine, account: Account, count: u32) -> Called
    ensures { Answers engine (issue account.card account.kind count) result.reply result.engine }
{
    let declared = card_count(&engine.tables.cards);
    let reply = accounts::issue(declared, &mut engine.holdings, account, count);
    Called { reply, engine }
}

pub fn redeem(mut engine: Engine, account: Account, count: u32) -> Called
    ensures { Answers engine (redeem account.card account.kind count) result.reply result.engine }
{
    let declared = card_count(&engine.tables.cards);
    let reply = accounts::redeem(declared, &mut engine.holdings, account, count);
    Called { reply, engine }
}

pub fn holding(engine: Engine, account: Account) -> Called
    ensures { Answers engine (query account.card account.kind) result.reply result.engine }
{
    let declared = card_count(&engine.tables.cards);
    let reply = accounts::holding(declared, &engine.holdings, account);
    Called { reply, engine }
}

pub fn settle(engine: Engine, exchange: &[u8], proof: &[u8]) -> Called
    ensures { Answers engine (settle exchange.now proof.now) result.reply result.engine }
{
    let Engine {
        mut holdings,
        tables,
    } = engine;
    let reply = settling::settle(&tables, &mut holdings, exchange, proof);
    let mut next = Engine { holdings, tables };
    // A byte stored once more: else the compiler copies an engine whole at each step, 20 % more instructions for three transfers.
    next.tables.cards[0] = tables.cards[0];
    Called {
        reply,
        engine: next,
    }
}

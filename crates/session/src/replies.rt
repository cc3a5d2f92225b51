// What is printed of an opening and of a line: the command that a line is, performed on the engine in place, and its answer.
ghost use Rattle.model.specs.Calls.{settle};
ghost use Rattle.answers.specs.View.{answer_of};
ghost use Rattle.commands.specs.Grammar.{answer_size};
ghost use Rattle.commands.specs.Reader.{pair_bytes};
ghost use Rattle.commands.specs.View.{command_of, Printed};
ghost use Rattle.engine.specs.View.{book_in};
ghost use Rattle.engine.specs.Contract.{Answers};
ghost use Rattle.session.specs.Input.{heading};
ghost use Rattle.session.specs.inner.Parts.{LineAnswered};

use crate::Session;
use answers::{Answer, Reply};
use commands::{ANSWER_SIZE, Command};
use engine::Engine;
use rulebook::layout::{card_count, rule_count};

// One byte over its limit is enough to refuse an exchange or a proof.
const EXCHANGE_ROOM: usize = limits::EXCHANGE_LIMIT + 1;

const PROOF_ROOM: usize = limits::PROOF_LIMIT + 1;

// What opening a text answered, at the start of a lent buffer: how many bytes it is.
pub(crate) fn put_opening(answer: Answer, engine: &Engine, out: &mut [u8; ANSWER_SIZE]) -> usize
    ensures { Printed answer_size (heading (answer_of (book_in engine.now) answer)) out.old out.new result }
{
    match answer {
        Ok(()) => {
            let tables = &engine.tables;
            commands::put_book(card_count(&tables.cards), rule_count(&tables.rules), out)
        }
        Err(refusal) => commands::put_reply(Err(refusal), out),
    }
}

// The settlement of two words of hexadecimal, whose bytes go into fixed memory: nothing is allocated.
fn settle(engine: &mut Engine, exchange: &[u8], proof: &[u8]) -> Reply
    ensures { Answers engine.old (settle (pair_bytes exchange.now) (pair_bytes proof.now)) result engine.new }
{
    let mut transfers = [0; EXCHANGE_ROOM];
    let n = commands::unhex(exchange, &mut transfers);
    let mut records = [0; PROOF_ROOM];
    let m = commands::unhex(proof, &mut records);
    settling::settle(
        &engine.tables,
        &mut engine.holdings,
        &transfers[..n],
        &records[..m],
    )
}

fn perform(engine: &mut Engine, command: Command) -> Reply
    ensures { Answers engine.old (command_of command.entry) result engine.new }
{
    let declared = card_count(&engine.tables.cards);
    let holdings = &mut engine.holdings;
    match command {
        Command::Issue { account, count } => accounts::issue(declared, holdings, account, count),
        Command::Redeem { account, count } => accounts::redeem(declared, holdings, account, count),
        Command::Query { account } => accounts::holding(declared, holdings, account),
        Command::Settle { exchange, proof } => settle(engine, exchange, proof),
    }
}

impl Session {
    // The line's answer at the start of a lent buffer: how many bytes it is.
    pub(crate) fn answer(&mut self, line: &[u8], reply: &mut [u8; ANSWER_SIZE]) -> usize
        ensures { LineAnswered self.old line.now reply.old self.new reply.new result }
    {
        let Some(command) = commands::read_in(self.dialect, line) else {
            return commands::put_bad(reply);
        };
        let told = perform(&mut self.engine, command);
        commands::put_reply(told, reply)
    }
}

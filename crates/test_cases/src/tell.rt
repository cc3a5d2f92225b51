// What calls answer, printed after their labels as the programs print it.
use answers::Reply;
use commands::Command;
use engine::{Called, Engine};

// 01's book.
pub(crate) fn open() -> Engine {
    engine::open(ring_book::BOOK).engine
}

// Handle and label are two parameters: a struct of both would be made anew for each label.
fn tell(rt: &impl Print, label: &str, reply: Reply) {
    let mut out = [0; commands::ANSWER_SIZE];
    let count = commands::put_reply(reply, &mut out);
    // What cannot be written ends nothing: the lines after it are still tried.
    let _ = print!(rt; "{label}: ");
    let _ = rt.write_all(&out[..count]);
}

pub(crate) fn settle(
    rt: &impl Print,
    label: &str,
    engine: Engine,
    exchange: &[u8],
    proof: &[u8],
) -> Engine {
    let called = engine::settle(engine, exchange, proof);
    tell(rt, label, called.reply);
    called.engine
}

// The call of a command line, if it is one on an account.
fn call(engine: Engine, line: &str) -> Option<Called> {
    match commands::read(line.as_bytes())? {
        Command::Issue { account, count } => Some(engine::issue(engine, account, count)),
        Command::Redeem { account, count } => Some(engine::redeem(engine, account, count)),
        Command::Query { account } => Some(engine::holding(engine, account)),
        Command::Settle { exchange, proof } => None,
    }
}

// The calls of labelled command lines, one after the other.
pub(crate) fn calls(rt: &impl Print, engine: Engine, lines: &[(&str, &str)]) -> Engine {
    let mut next = engine;
    for (label, line) in lines {
        if let Some(called) = call(next, line) {
            tell(rt, label, called.reply);
            next = called.engine;
        }
    }
    next
}

// bench_calls: the engine's calls, many times each, to be timed.
//
// Standard input has three parts with an empty line between them: a rule text; command lines of the programs' form, each performed once;
// and such lines, each performed 100,000 times. For each command line is printed how often it was not refused.

#![tactic(auto)]

mod calls;

ghost use Rattle.std.specs.Prelude.{◌≤◌, length};

use accounts::Account;
use answers::Told;
use calls::{repeat, repeat_settle};
use commands::Command;
use engine::Engine;
use std::io::Read;

const REPEATS: u32 = 100_000;

// Room for a rule text and the lines: what is timed has no heap.
const INPUT_ROOM: usize = 32_768;

// More bytes than an exchange or a proof may have. Arrays, since `unhex` fills what it is lent: a Vec would be filled with zeros first.
const WORD_ROOM: usize = 4096;

fn perform(engine: &mut Engine, line: &[u8], times: u32) -> u32 {
    match commands::read(line) {
        Some(Command::Issue { account, count }) => {
            repeat(engine, times, |next| engine::issue(next, account, count))
        }
        Some(Command::Redeem { account, count }) => {
            repeat(engine, times, |next| engine::redeem(next, account, count))
        }
        Some(Command::Query { account }) => ask(engine, account, times),
        Some(Command::Settle { exchange, proof }) => settle(engine, exchange, proof, times),
        None => 0,
    }
}

// What a query tells is the kind that is asked next, so that the compiler cannot leave a query out.
fn ask(engine: &mut Engine, first: Account, times: u32) -> u32 {
    let mut account = first;
    repeat(engine, times, |next| {
        let called = engine::holding(next, account);
        account.kind = match called.reply {
            Ok(Told::Holding(held)) => held,
            _ => 0,
        };
        called
    })
}

// A settlement of two words of hexadecimal, each as far as there is room for its bytes.
fn settle(engine: &mut Engine, exchange: &[u8], proof: &[u8], times: u32) -> u32 {
    let mut exchange_bytes = [0; WORD_ROOM];
    let n = commands::unhex(exchange, &mut exchange_bytes);
    let mut proof_bytes = [0; WORD_ROOM];
    let m = commands::unhex(proof, &mut proof_bytes);
    let exchange = &exchange_bytes[..n];
    let proof = &proof_bytes[..m];
    repeat_settle(engine, exchange, proof, times)
}

// Each line so many times; a last one without its LF is none. A write that fails ends nothing, since the calls are what is timed.
fn perform_lines(rt: &impl Print, engine: &mut Engine, lines: &[u8], times: u32) {
    let mut rest = lines;
    while let Some((line, after)) = ascii::cut(rest, b'\n') {
        let accepted = perform(engine, line, times);
        let _ = println!(rt; "{accepted}");
        rest = after;
    }
}

// Standard input, as far as there is room: how many bytes. A read that fails is taken for its end.
fn read_input(from: &mut impl Read, input: &mut [u8]) -> usize
    ensures { result ≤ length input.new }
{
    let mut size = 0;
    while size < input.len() {
        let count = from.read(&mut input[size..]).unwrap_or(0);
        if count == 0 {
            break;
        }
        size += count;
    }
    size
}

// The lines up to the first empty one, and what follows that; all of them where there is none.
fn cut_part(input: &[u8]) -> (&[u8], &[u8]) {
    let mut rest = input;
    while let Some((line, after)) = ascii::cut(rest, b'\n') {
        if line.is_empty() {
            return (&input[..input.len() - rest.len()], after);
        }
        rest = after;
    }
    (input, &[])
}

fn main(rt: HostRuntime) {
    let mut input = [0; INPUT_ROOM];
    let size = read_input(&mut rt.reader(), &mut input);
    let (text, calls) = cut_part(&input[..size]);
    let (once, often) = cut_part(calls);
    let mut engine = engine::open(text).engine;
    perform_lines(&rt, &mut engine, once, 1);
    perform_lines(&rt, &mut engine, often, REPEATS);
}

// 32 transfers with 32 records, and one transfer or record more or less.
ghost use Rattle.std.specs.Prelude.{◌≤◌};

use crate::{free, tell};
use accounts::Account;
use engine::Engine;

// Two cards, and a rule that asks nothing; card 1 holds so many tokens.
fn open(count: u32) -> Engine {
    let opened = engine::open(b"C 700012000019\nC 700012000027\nR 1 A a\n");
    engine::issue(opened.engine, Account { card: 1, kind: 1 }, count).engine
}

// So many transfers with so many records of the proof for 32, while card 1 holds so many tokens.
fn settle(rt: &impl Print, label: &str, held: u32, transfers: usize, records: usize) -> Engine
    requires { (transfers ≤ 33) × (records ≤ 32) }
{
    let exchange = [[1, 1, 2]; 33];
    let proof = free::proof(&[[1, 1, 2]; 32]);
    tell::settle(
        rt,
        label,
        open(held),
        exchange[..transfers].as_flattened(),
        proof[..records].as_flattened(),
    )
}

pub(crate) fn settlements(rt: &impl Print) {
    let e = settle(rt, "96 bytes, 32 records", 32, 32, 32);
    tell::calls(
        rt,
        e,
        &[("card 1's kind A", "H 1 1"), ("card 2's kind A", "H 2 1")],
    );
    settle(rt, "96 bytes while 31 are held", 31, 32, 32);
    settle(rt, "99 bytes", 33, 33, 32);
    settle(rt, "93 bytes, 32 records", 32, 31, 32);
    settle(rt, "96 bytes, 31 records", 32, 32, 31);
}

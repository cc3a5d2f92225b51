// Passing on what comes in: questions 22 and 23 of exchanges by rules that ask nothing.
use crate::{free, tell};
use accounts::Account;
use engine::Engine;

// Cards 1 to 3 give A, and card 4 gives B.
fn open() -> Engine {
    engine::open(
        b"C 700056000016\nC 700012000019\nC 700012000027\nC 700012010018\n\
          R 1 A a\nR 2 A a\nR 3 A a\nR 4 B a\n",
    )
    .engine
}

fn settle(rt: &impl Print, label: &str, engine: Engine, exchange: &[[u8; 3]]) -> Engine {
    let proof = free::proof(exchange);
    let records = &proof[..exchange.len().min(proof.len())];
    tell::settle(
        rt,
        label,
        engine,
        exchange.as_flattened(),
        records.as_flattened(),
    )
}

pub(crate) fn orders(rt: &impl Print) {
    let holding = tell::calls(rt, open(), &[("an A for card 1", "I 1 1 1")]);
    settle(
        rt,
        "gift after its receipt",
        holding,
        &[[1, 1, 2], [2, 1, 3]],
    );
    let e = settle(
        rt,
        "gift before its receipt",
        holding,
        &[[2, 1, 3], [1, 1, 2]],
    );
    tell::calls(
        rt,
        e,
        &[
            ("card 1's kind A", "H 1 1"),
            ("card 2's kind A", "H 2 1"),
            ("card 3's kind A", "H 3 1"),
        ],
    );
}

pub(crate) fn amounts(rt: &impl Print) {
    let holding = tell::calls(
        rt,
        open(),
        &[
            ("an A for card 1", "I 1 1 1"),
            ("a B for card 4", "I 4 2 1"),
        ],
    );
    let twice = [[1, 1, 2], [2, 1, 3], [2, 1, 3]];
    settle(rt, "one receipt passed on twice", holding, &twice);
    settle(
        rt,
        "receipt of another kind",
        holding,
        &[[4, 2, 2], [2, 1, 3]],
    );
    settle(
        rt,
        "receipt of another card",
        holding,
        &[[1, 1, 3], [2, 1, 3]],
    );
    let more = tell::calls(rt, holding, &[("an A for card 2", "I 2 1 1")]);
    settle(rt, "one receipt and one held, passed on", more, &twice);
}

pub(crate) fn rings(rt: &impl Print) {
    let e = settle(
        rt,
        "round a ring in which nobody holds it",
        open(),
        &[[1, 1, 2], [2, 1, 3], [3, 1, 1]],
    );
    tell::calls(
        rt,
        e,
        &[("card 1's kind A", "H 1 1"), ("card 2's kind A", "H 2 1")],
    );
    settle(
        rt,
        "round the ring, and one gift more",
        e,
        &[[1, 1, 2], [2, 1, 3], [3, 1, 1], [1, 1, 2]],
    );
}

// An engine that no calls make: card 1 holds one A and card 2 so many.
fn holding(count: u32) -> Engine {
    let mut engine = open();
    engine.holdings[Account { card: 1, kind: 1 }.place()] = 1;
    engine.holdings[Account { card: 2, kind: 1 }.place()] = count;
    engine
}

pub(crate) fn limits(rt: &impl Print) {
    let most = holding(1_000_000_000);
    let beyond = holding(u32::MAX);
    let passed_on = [[1, 1, 2], [2, 1, 3]];
    settle(
        rt,
        "receipt of a card at the limit, passed on",
        most,
        &passed_on,
    );
    settle(rt, "receipt of a card at the limit", most, &[[1, 1, 2]]);
    settle(rt, "receipt beyond 32 bits, passed on", beyond, &passed_on);
    settle(rt, "beyond 32 bits, and not covered", beyond, &[[3, 1, 2]]);
}

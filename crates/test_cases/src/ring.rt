// 01's ring: settled, then with one smallest damage for each refusal.
use crate::tell;
use accounts::Account;
use engine::Engine;

// 1 A 2, 2 B 3, 3 C 1, by the rules 1, 2, 3
const EXCHANGE: [u8; 9] = [1, 1, 2, 2, 2, 3, 3, 3, 1];

const PROOF: [u8; 36] = *b"\x02\x01\x01\0\x02\x03\0\0\0\0\0\0\
                           \x03\x02\x02\0\x03\x01\0\0\0\0\0\0\
                           \0\x03\x03\0\x01\x02\0\0\0\0\0\0";

// An engine whose cards hold what the ring asks of them.
fn holding_engine() -> Engine {
    [(1, 1, 2), (2, 2, 1), (3, 3, 1)]
        .into_iter()
        .fold(tell::open(), |next, (card, kind, count)| {
            engine::issue(next, Account { card, kind }, count).engine
        })
}

// The ring's settlement.
fn settle(rt: &impl Print, label: &str, engine: Engine) -> Engine {
    tell::settle(rt, label, engine, &EXCHANGE, &PROOF)
}

pub(crate) fn settles(rt: &impl Print) {
    let e = settle(rt, "the ring", holding_engine());
    tell::calls(
        rt,
        e,
        &[
            ("card 1's kind C", "H 1 3"),
            ("card 1's kind A", "H 1 1"),
            ("card 2's kind A", "H 2 1"),
            ("card 3's kind C", "H 3 3"),
        ],
    );
    settle(rt, "the ring again", e);
    tell::calls(rt, e, &[("card 1's kind A still", "H 1 1")]);
}

// A settlement while the cards hold what the ring asks of them.
fn ask(rt: &impl Print, label: &str, exchange: &[u8], proof: &[u8]) {
    tell::settle(rt, label, holding_engine(), exchange, proof);
}

// The ring's exchange with each proof.
fn with_proofs(rt: &impl Print, rows: &[(&str, &[u8])]) {
    for (label, proof) in rows {
        ask(rt, label, &EXCHANGE, proof);
    }
}

pub(crate) fn sizes(rt: &impl Print) {
    ask(rt, "exchange empty", b"", &PROOF);
    ask(rt, "exchange of 8 bytes", &EXCHANGE[..8], &PROOF);
    with_proofs(
        rt,
        &[
            ("proof empty", b""),
            ("proof of 35 bytes", &[0; 35]),
            ("proof of 3,072 bytes", &[0; 3_072]),
            ("proof of 3,060 bytes of zero", &[0; 3_060]),
        ],
    );
    ask(rt, "exchange of 99 bytes", &[0; 99], &PROOF);
    settle(rt, "engine without cards", engine::open(b"").engine);
}

// The bytes with one of them changed.
fn changed<const N: usize>(bytes: [u8; N], at: usize, byte: u8) -> [u8; N] {
    let mut changed = bytes;
    if let Some(place) = changed.get_mut(at) {
        *place = byte;
    }
    changed
}

// Each with one byte of the ring's exchange changed.
fn in_exchange(rt: &impl Print, rows: &[(&str, usize, u8)]) {
    for (label, at, byte) in rows {
        ask(rt, label, &changed(EXCHANGE, *at, *byte), &PROOF);
    }
}

// Each with one byte of its proof changed. Of one function for both, each row's bytes would be given twice: to change, and as they are.
fn in_proof(rt: &impl Print, rows: &[(&str, usize, u8)]) {
    for (label, at, byte) in rows {
        ask(rt, label, &EXCHANGE, &changed(PROOF, *at, *byte));
    }
}

pub(crate) fn transfers(rt: &impl Print) {
    in_exchange(
        rt,
        &[
            ("giver undeclared", 3, 4),
            ("receiver 0", 5, 0),
            ("giver and receiver alike", 2, 1),
            ("kind 0", 7, 0),
            ("kind 17", 7, 17),
        ],
    )
}

pub(crate) fn records(rt: &impl Print) {
    in_proof(
        rt,
        &[
            ("claims transfer 0", 1, 0),
            ("claims transfer 4", 25, 4),
            ("claims transfer 1 twice", 13, 1),
            ("chain comes back to record 1", 12, 1),
            ("rule 0", 2, 0),
            ("rule 9", 26, 9),
            ("rule of another card", 2, 2),
            ("rule of another kind", 2, 6),
            ("byte 3 not zero", 3, 1),
            ("used variable zero", 5, 0),
            ("used variable undeclared", 17, 4),
            ("head's variable not the receiver", 4, 3),
            ("unused variable not zero", 35, 1),
            ("price from the owner", 5, 1),
            ("price not paid", 5, 2),
            ("next zero too early", 0, 0),
            ("next past the proof", 12, 4),
            ("next not zero at the end", 24, 1),
        ],
    )
}

pub(crate) fn swaps(rt: &impl Print) {
    ask(rt, "P9", &[2, 2, 1], b"\0\x01\x04\0\x01\0\0\0\0\0\0\0");
    ask(rt, "P10", &[1, 1, 2], b"\0\x01\x01\0\x02\x01\0\0\0\0\0\0");
    ask(
        rt,
        "P6",
        &[3, 4, 2, 1, 2, 3, 2, 2, 3],
        b"\x02\x01\x05\0\x02\x01\0\0\0\0\0\0\
          \x03\x02\x06\0\x03\x02\0\0\0\0\0\0\
          \0\x03\x04\0\x03\0\0\0\0\0\0\0",
    );
    settle(rt, "ring not covered", tell::open());
}

// P6 with a second 3 D 2: what is asked twice occurs twice.
pub(crate) fn asked_twice(rt: &impl Print) {
    let holding = tell::calls(
        rt,
        tell::open(),
        &[
            ("card 1's B for P7", "I 1 2 1"),
            ("card 2's B for P7", "I 2 2 1"),
            ("card 3's D for P7", "I 3 4 2"),
        ],
    );
    let e = tell::settle(
        rt,
        "P7",
        holding,
        &[3, 4, 2, 1, 2, 3, 2, 2, 3, 3, 4, 2],
        b"\x02\x01\x05\0\x02\x01\0\0\0\0\0\0\
          \x03\x02\x06\0\x03\x02\0\0\0\0\0\0\
          \x04\x03\x04\0\x03\0\0\0\0\0\0\0\
          \0\x04\x05\0\x02\x02\0\0\0\0\0\0",
    );
    tell::calls(rt, e, &[("card 2's kind D", "H 2 4")]);
}

// P8, by the rules 7, 8, 4, 5: card 2 gives the D that card 3 gives it.
fn settle_supplied(rt: &impl Print, label: &str, engine: Engine) -> Engine {
    tell::settle(
        rt,
        label,
        engine,
        &[1, 1, 2, 2, 4, 1, 2, 2, 3, 3, 4, 2],
        b"\x02\x01\x07\0\x02\x02\0\0\0\0\0\0\
          \x03\x02\x08\0\x01\0\0\0\0\0\0\0\
          \x04\x03\x04\0\x03\0\0\0\0\0\0\0\
          \0\x04\x05\0\x02\x02\0\0\0\0\0\0",
    )
}

pub(crate) fn supplied(rt: &impl Print) {
    let without = tell::calls(
        rt,
        tell::open(),
        &[
            ("card 1's A for P8", "I 1 1 1"),
            ("card 2's B for P8", "I 2 2 1"),
        ],
    );
    settle_supplied(rt, "P8 while nobody holds D", without);
    let holding = tell::calls(rt, without, &[("card 3's D for P8", "I 3 4 1")]);
    let e = settle_supplied(rt, "P8", holding);
    tell::calls(
        rt,
        e,
        &[
            ("card 1's kind D", "H 1 4"),
            ("card 2's kind D", "H 2 4"),
            ("card 3's kind D", "H 3 4"),
        ],
    );
}

// The ring's records at 1, 5 and 3, with records between them that nobody may read.
pub(crate) fn other_order(rt: &impl Print) {
    ask(
        rt,
        "another order with records off the chain",
        &EXCHANGE,
        b"\x05\x03\x03\0\x01\x02\0\0\0\0\0\0\
          \xff\xff\xff\xff\xff\xff\xff\xff\xff\xff\xff\xff\
          \0\x02\x02\0\x03\x01\0\0\0\0\0\0\
          \xff\xff\xff\xff\xff\xff\xff\xff\xff\xff\xff\xff\
          \x03\x01\x01\0\x02\x03\0\0\0\0\0\0",
    )
}

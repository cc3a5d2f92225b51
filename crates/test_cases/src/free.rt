// Proofs of exchanges by rules that ask nothing.
ghost use Rattle.std.specs.Prelude.{◌<◌};

use std::array;

const RECORDS: usize = 32;

// A record for each of the first 32 transfers: by the rule of its giver's number, with its receiver for a. A caller takes its part: a Vec would
// ask each for memory that may lack.
pub(crate) fn proof(exchange: &[[u8; 3]]) -> [[u8; 12]; RECORDS] {
    array::from_fn(
        |i: usize| -> [u8; 12]
            requires { i < 32 }
        {
            // `as` cuts nothing of a number below 32
            let number = i as u8 + 1;
            let next = if i + 1 < exchange.len().min(RECORDS) {
                number + 1
            } else {
                0
            };
            match exchange.get(i) {
                Some([giver, kind, receiver]) => [
                    next, number, *giver, 0, *receiver, 0, 0, 0, 0, 0, 0, 0,
                ],
                None => [0; 12],
            }
        },
    )
}

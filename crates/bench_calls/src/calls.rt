// A call so many times, the engine of one handed to the next: how many were not refused.
ghost use Rattle.std.specs.Prelude.{◌≤◌};

use engine::{Called, Engine};

pub(crate) fn repeat<F: FnMut(Engine) -> Called>(
    engine: &mut Engine,
    times: u32,
    mut call: F,
) -> u32
    requires { F.IsAlwaysCallable call }
    ensures { result ≤ times }
{
    let mut next = *engine;
    let mut count = 0;
    // Counted, not indexed; a `fold` would hand on engine and count as a pair, and put them apart at its end.
    for made in 0..times {
        let called = call(next);
        count += u32::from(called.reply.is_ok());
        next = called.engine;
    }
    *engine = next;
    count
}

// The same loop by itself: through a closure a settlement of three takes 3,225 instructions in place of 2,519.
pub(crate) fn repeat_settle(engine: &mut Engine, exchange: &[u8], proof: &[u8], times: u32) -> u32
    ensures { result ≤ times }
{
    let mut next = *engine;
    let mut count = 0;
    for made in 0..times {
        let called = engine::settle(next, exchange, proof);
        count += u32::from(called.reply.is_ok());
        next = called.engine;
    }
    *engine = next;
    count
}

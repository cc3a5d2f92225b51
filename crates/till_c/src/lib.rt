// The till host's call for C, as include/thawcroft.h has it. It is the crate till's: a crate is a library for other crates or one for C, not
// both.

#![tactic(auto)]

ghost use Rattle.till.specs.Tills.{Tills};

// A slice is a pointer and a length in C.
#[unsafe(no_mangle)]
pub extern "C" fn thawcroft_settle(
    text: &[u8],
    holdings: &mut [u32],
    exchange: &[u8],
    proof: &[u8],
) -> u32
    ensures { Tills text.now holdings.old exchange.now proof.now result holdings.new }
{
    till::thawcroft_settle(text, holdings, exchange, proof)
}

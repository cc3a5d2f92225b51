// The numbers of document 01 that size the tables or that more than one crate needs, and a number held to such a bound. Numbers of bytes
// are sizes; the others are of their smallest width, as cards, kinds and rules are bytes in tables and exchanges.

#![tactic(auto)]

ghost use Rattle.std.specs.Prelude.{◌≡◌};
ghost use Rattle.model.specs.Lists.{within};

// The most bytes of a rule text.
pub const TEXT_LIMIT: usize = 16_384;

pub const CARD_LIMIT: u8 = 32;

pub const KIND_COUNT: u8 = 16;

pub const GROUP_COUNT: u8 = 8;

pub const RULE_LIMIT: u8 = 56;

pub const VARIABLE_COUNT: u8 = 8;

pub const PRICE_LIMIT: u8 = 4;

pub const CONDITION_LIMIT: u8 = 4;

pub const LEAST_DIGITS: u8 = 12;

pub const MOST_DIGITS: u8 = 19;

pub const SUM_LIMIT: u32 = 1_000_000_000;

// The bytes of a transfer in an exchange, and the most that an exchange and a proof may have.
pub const TRANSFER_SIZE: usize = 3;

pub const EXCHANGE_LIMIT: usize = 96;

pub const PROOF_LIMIT: usize = 3060;

// Whether n is one of 1 to m: of bytes; of another width a range's `contains` stands where it is asked.
pub fn is_within(n: u8, m: u8) -> bool
    ensures { result ≡ within n m }
{
    (1..=m).contains(&n)
}

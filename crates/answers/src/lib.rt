// What opening and the calls answer, and why they refuse.

#![tactic(auto)]

ghost use Rattle.std.specs.Prelude.{◌≡◌};
ghost use Rattle.answers.specs.View.{reply_of, numbered_of, refusal_number};

// Why opening or a call is refused: the questions of document 01 that can be answered no, each at its number.
#[derive(Clone, Copy, Debug, PartialEq, Eq, Hash)]
pub enum Reason {
    // Opening
    TextTooLong = 1,
    NoForm = 2,
    TooManyCards = 3,
    BadCardNumber = 4,
    CardRepeated = 5,
    CardNotAbove = 6,
    TooManyRules = 7,
    // Issuing, redeeming, the holding query
    CardUndeclared = 8,
    KindUnknown = 9,
    SumExceeded = 10,
    HoldingShort = 11,
    // Settling
    ExchangeSize = 12,
    BadTransfer = 13,
    ProofSize = 14,
    BadClaim = 15,
    WrongRule = 16,
    BadCards = 17,
    BadPrice = 18,
    ConditionUnmet = 19,
    BadLink = 20,
    PriceUnpaid = 21,
    NotCovered = 22,
    HoldingExceeded = 23,
    // The till host's call
    BadHoldings = 24,
}

// A reason's number.
impl From<Reason> for u8 {
    ghost use Rattle.answers.specs.View.{number_of};

    ghost from_gives = { λ reason number. number ≡ number_of reason };

    fn from(reason: Reason) -> u8 {
        reason as u8
    }
}

// A refusal: its reason, and a place: a line, a transfer or a record, from 1; 0, as document 01 prints it, where there is none.
#[derive(Clone, Copy, Debug, PartialEq, Eq, Hash)]
pub struct Refusal {
    pub reason: Reason,
    pub place: u32,
}

impl Reason {
    // A refusal for this reason at a place.
    pub fn at(self, place: u32) -> Refusal
        ensures { result ≡ record { reason = self; place = place } }
    {
        Refusal {
            reason: self,
            place,
        }
    }
}

// Most reasons have no place.
impl From<Reason> for Refusal {
    ghost from_gives = { λ why refusal. refusal ≡ record { reason = why; place = 0 } };

    fn from(reason: Reason) -> Refusal {
        reason.at(0)
    }
}

// What a call tells that is not refused: no more than that, or a holding. No Option: to be done is an answer, not the lack of a holding.
#[derive(Clone, Copy, Debug, PartialEq, Eq, Hash)]
pub enum Told {
    Done,
    Holding(u32),
}

// What a call answers.
pub type Reply = Result<Told, Refusal>;

// A refusal's number; 0 of a call that is not refused, as the C interface has it.
pub fn refusal_number(reply: Reply) -> u8
    ensures { result ≡ refusal_number (reply_of reply) }
{
    told_number(reply.map_err(|refusal| refusal.reason.into()))
}

// The same of a refusal that is told by its number alone: any number, also one that is no reason's.
pub fn told_number(reply: Result<Told, u8>) -> u8
    ensures { result ≡ refusal_number (numbered_of reply) }
{
    match reply {
        Ok(_) => 0,
        Err(number) => number,
    }
}

// What opening a text answers.
pub type Answer = Result<(), Refusal>;

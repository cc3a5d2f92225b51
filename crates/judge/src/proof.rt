// A proof's records of 12 bytes: where their bytes are, and what these say (model's specs/Proof.antt).
ghost use Rattle.std.specs.Prelude.{◌≡◌, ◌-◌, ◌≤◌, length, get_or, [], drop};
ghost use Rattle.model.specs.Limits.{variable_count};
ghost use Rattle.model.specs.Proof as model;

use letters::Variable;

pub(crate) const RECORD_SIZE: usize = 12;

const NEXT: usize = 0;

const CLAIM: usize = 1;

const RULE: usize = 2;

const ZERO: usize = 3;

const CARDS: usize = 4;

// A record of a proof. Each byte has a method of its name, though they differ in a place alone: no other file knows one.
#[derive(Clone, Copy)]
pub(crate) struct Record<'a> {
    pub(crate) bytes: &'a [u8; RECORD_SIZE],
}

impl<'a> Record<'a> {
    // The record of a number, from 1.
    pub(crate) fn at(records: &'a [[u8; RECORD_SIZE]], number: u8) -> Record<'a>
        requires { (1 ≤ number) × (number ≤ length records.now) }
        ensures { result.bytes.now ≡ get_or records.now (number - 1) [] }
    {
        Record {
            bytes: &records[usize::from(number) - 1],
        }
    }

    pub(crate) fn next(self) -> u8
        ensures { result ≡ model.next self.entry.bytes.now }
    {
        let bytes = self.bytes;
        ascii::byte(bytes, NEXT)
    }

    pub(crate) fn claim(self) -> u8
        ensures { result ≡ model.claim self.entry.bytes.now }
    {
        let bytes = self.bytes;
        ascii::byte(bytes, CLAIM)
    }

    pub(crate) fn rule(self) -> u8
        ensures { result ≡ model.rule_number self.entry.bytes.now }
    {
        let bytes = self.bytes;
        ascii::byte(bytes, RULE)
    }

    // Byte 3, which has to be zero.
    pub(crate) fn zero(self) -> u8
        ensures { result ≡ get_or self.entry.bytes.now 3 0 }
    {
        let bytes = self.bytes;
        ascii::byte(bytes, ZERO)
    }

    pub(crate) fn card(self, v: Variable) -> u8
        ensures { result ≡ model.cards self.entry.bytes.now v.number }
    {
        let bytes = self.bytes;
        ascii::byte(bytes, CARDS + usize::from(v.number))
    }

    // The cards of the variables, a to h.
    pub(crate) fn cards(self) -> &'a [u8]
        ensures { (result.now ≡ drop 4 self.entry.bytes.now) × (length result.now ≡ variable_count) }
    {
        let bytes = self.bytes;
        &bytes[CARDS..]
    }
}

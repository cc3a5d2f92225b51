// The layout of the two tables: no other file knows an offset. specs/Layout.antt has the same places, specs/View.antt what they mean.
//
// Each table is rows of bytes in one array of a fixed size, since the engine has no heap. Row 0 begins with the number of cards, or of
// rules; row n is card n's, or rule n's. What is read of a table is told for every value of it, and for any number of a card, a rule or an entry.
// Bytes and no structs: so every value of a table is a book, and no contract over one has a condition (DECISIONS 24). Free functions and
// no methods: a table is an array, which is what contracts speak of.
ghost use Rattle.std.specs.List.{count_by};
ghost use Rattle.std.specs.Option.{is_some};
ghost use Rattle.std.specs.Prelude.{◌^◌, ◌≡◌, ◌≤◌, ◌<◌, map, min};
ghost use Rattle.model.specs.Lists.{up_to};
ghost use Rattle.model.specs.Limits.{card_limit, rule_limit, group_count, most_digits};
ghost use Rattle.forms.specs.Numbers.{digits_in};
ghost use Rattle.rulebook.specs.Layout.{card_byte, row_at};
ghost use Rattle.rulebook.specs.View.{card_count, card_length, digit_at, member_view, rule_count};
ghost use Rattle.rulebook.specs.View.{row_owner, row_kind, row_head, row_price_count, row_condition_count};
ghost use Rattle.rulebook.specs.View.{price_giver, price_kind, price_receiver, group_asked, first_name, second_name};
ghost use Rattle.rulebook.specs.Rows.{row_head_said, name_at, price_of, price_at, condition_of, condition_at};
ghost use Rattle.rulebook.specs.inner.Writes.{CardAdded, MemberAdded, RuleAdded};
ghost use Rattle.rulebook.specs.inner.Rows.{name_byte, price_bytes, condition_bytes, row_of};
ghost use Rattle.letters.specs.Letters.{variable_said};

use forms::{CardNumber, Condition, MOST_DIGITS, Price, RuleForm};
use letters::{Name, Variable};

// Where row 0 of either table has its count.
const COUNT: usize = 0;

// Widened by `as`, here and below: a constant calls no From.
const CARD_ROW: usize = 1 + MOST_DIGITS + limits::GROUP_COUNT as usize;

pub(crate) const RULE_ROW: usize = 32;

pub(crate) const CARD_TABLE_SIZE: usize = (limits::CARD_LIMIT as usize + 1) * CARD_ROW;

pub(crate) const RULE_TABLE_SIZE: usize = (limits::RULE_LIMIT as usize + 1) * RULE_ROW;

pub type CardTable = [u8; CARD_TABLE_SIZE];

pub type RuleTable = [u8; RULE_TABLE_SIZE];

pub type RuleRow = [u8; RULE_ROW];

// A card's row: how many digits it has, its digits from 0 on, a byte for each group from 1 on.
const LENGTH: usize = 0;

const DIGITS: usize = 1;

const BEFORE_GROUPS: usize = MOST_DIGITS;

// A rule's row: owner, kind, head, two counts, prices and conditions of three bytes each, and three bytes to spare.
const OWNER: usize = 0;

const KIND: usize = 1;

const HEAD: usize = 2;

const PRICE_COUNT: usize = 3;

const CONDITION_COUNT: usize = 4;

const ENTRY_SIZE: usize = 3;

pub type Entry = [u8; ENTRY_SIZE];

const PRICES: usize = 5;

const PRICE_GIVER: usize = PRICES;

const PRICE_KIND: usize = PRICES + 1;

const PRICE_RECEIVER: usize = PRICES + 2;

const CONDITIONS: usize = PRICES + limits::PRICE_LIMIT as usize * ENTRY_SIZE;

const GROUP_ASKED: usize = CONDITIONS;

const FIRST_NAME: usize = CONDITIONS + 1;

const SECOND_NAME: usize = CONDITIONS + 2;

const SPARE: usize = CONDITIONS + limits::CONDITION_LIMIT as usize * ENTRY_SIZE;

// ---- the card table read

// A count for each table, though both are at one place: the tables are of two types, and each has its limit.
#[tactic(auto, unfolding(crate::specs::View::card_count))]
pub fn card_count(cards: &CardTable) -> u8
    ensures { result ≡ card_count cards.now }
{
    cards[COUNT].min(limits::CARD_LIMIT)
}

// A byte of row n.
fn card_byte(cards: &CardTable, n: u8, place: usize) -> u8
    requires { place < 2 ^ 16 }
    ensures { result ≡ card_byte cards.now n place }
{
    ascii::byte(cards, usize::from(n) * CARD_ROW + place)
}

// How many digits card m has.
pub(crate) fn card_length(cards: &CardTable, m: u8) -> u8
    ensures { result ≡ card_length cards.now m }
{
    card_byte(cards, m, LENGTH).clamp(limits::LEAST_DIGITS, limits::MOST_DIGITS)
}

// Digit d of card m, from 0.
pub fn digit_at(cards: &CardTable, m: u8, d: u8) -> u8
    ensures { result ≡ digit_at cards.now m d }
{
    card_byte(cards, m, DIGITS + usize::from(d))
}

// The places for card m's digits, of which it has as many as its length says; past the last card, the last row's.
#[tactic(auto, using(crate::proofs::Parts::digits_part))]
pub fn digits(cards: &CardTable, m: u8) -> &[u8]
    ensures { result.now ≡ up_to (digit_at cards.now (min m card_limit)) most_digits }
{
    let at = usize::from(m.min(limits::CARD_LIMIT)) * CARD_ROW + DIGITS;
    &cards[at..at + MOST_DIGITS]
}

// Whether card m is in the group.
#[tactic(auto, unfolding(crate::specs::View::member_view))]
pub fn is_member(cards: &CardTable, group: u8, m: u8) -> bool
    ensures { result ≡ member_view cards.now group m }
{
    limits::is_within(group, limits::GROUP_COUNT)
        && limits::is_within(m, limits::CARD_LIMIT)
        && card_byte(cards, m, BEFORE_GROUPS + usize::from(group)) != 0
}

// ---- a variable and a name, which are a byte of a rule's row

// Any byte is one, since every value of a table is a book: a variable is taken modulo 8, and the owner is 8 and above, as 0 is no group.
// Functions and no From, nor for a price or a condition below: this reading of bytes is the table's alone, and a line has letters.

fn variable_of(byte: u8) -> Variable
    ensures { result ≡ variable_said byte }
{
    Variable {
        number: byte % limits::VARIABLE_COUNT,
    }
}

fn name_of(byte: u8) -> Name
    ensures { result ≡ name_at byte }
{
    if byte < limits::VARIABLE_COUNT {
        return Name::Variable(variable_of(byte));
    }
    Name::Owner
}

// The owner's is the first that is no variable's.
fn name_byte(name: Name) -> u8
    ensures { result ≡ name_byte name }
{
    match name {
        Name::Variable(v) => v.number,
        Name::Owner => limits::VARIABLE_COUNT,
    }
}

// ---- the rule table read

#[tactic(auto, unfolding(crate::specs::View::rule_count))]
pub fn rule_count(rules: &RuleTable) -> u8
    ensures { result ≡ rule_count rules.now }
{
    rules[COUNT].min(limits::RULE_LIMIT)
}

// A rule's row. Each part has a method of its name, though some differ in a place alone: no other file knows one.
#[derive(Clone, Copy)]
pub struct Row<'a> {
    pub bytes: &'a RuleRow,
}

// The row of rule n; past the last, the last row.
#[tactic(auto, using(crate::proofs::Parts::row_part))]
pub fn row_at(rules: &RuleTable, n: u8) -> Row<'_>
    ensures { result.bytes.now ≡ row_at rules.now (min n rule_limit) }
{
    let (rows, _) = rules.as_chunks::<RULE_ROW>();
    Row {
        bytes: &rows[usize::from(n.min(limits::RULE_LIMIT))],
    }
}

impl<'a> Row<'a> {
    pub fn owner(self) -> u8
        ensures { result ≡ row_owner self.entry.bytes.now }
    {
        let bytes = self.bytes;
        owner(bytes)
    }

    pub fn kind(self) -> u8
        ensures { result ≡ row_kind self.entry.bytes.now }
    {
        let bytes = self.bytes;
        kind(bytes)
    }

    pub fn head(self) -> Variable
        ensures { result ≡ row_head_said self.entry.bytes.now }
    {
        let bytes = self.bytes;
        variable_of(head(bytes))
    }

    // Its prices, each read by `price_of`.
    pub fn prices(self) -> &'a [Entry]
        ensures { map price_of result.now ≡ up_to (price_at self.entry.bytes.now) (row_price_count self.entry.bytes.now) }
    {
        let bytes = self.bytes;
        let n = price_count(bytes);
        let (entries, _) = bytes[PRICES..].as_chunks::<ENTRY_SIZE>();
        &entries[..usize::from(n)]
    }

    // Its conditions, each read by `condition_of`. Of one function for prices too, the places and the way to read an entry would be parameters.
    pub fn conditions(self) -> &'a [Entry]
        ensures { map condition_of result.now ≡ up_to (condition_at self.entry.bytes.now) (row_condition_count self.entry.bytes.now) }
    {
        let bytes = self.bytes;
        let n = condition_count(bytes);
        let (entries, _) = bytes[CONDITIONS..].as_chunks::<ENTRY_SIZE>();
        &entries[..usize::from(n)]
    }
}

// ---- a rule's row read byte by byte: of any bytes, and of an entry of any number

pub fn owner(row: &[u8]) -> u8
    ensures { result ≡ row_owner row.now }
{
    ascii::byte(row, OWNER)
}

pub fn kind(row: &[u8]) -> u8
    ensures { result ≡ row_kind row.now }
{
    ascii::byte(row, KIND)
}

pub fn head(row: &[u8]) -> u8
    ensures { (result ≡ row_head row.now) × (result < 8) }
{
    ascii::byte(row, HEAD) % limits::VARIABLE_COUNT
}

pub fn price_count(row: &[u8]) -> u8
    ensures { result ≡ row_price_count row.now }
{
    ascii::byte(row, PRICE_COUNT).min(limits::PRICE_LIMIT)
}

pub fn condition_count(row: &[u8]) -> u8
    ensures { result ≡ row_condition_count row.now }
{
    ascii::byte(row, CONDITION_COUNT).min(limits::CONDITION_LIMIT)
}

// Price i, from 0: the giver's variable, the kind, the receiver's name.

pub fn price_giver(row: &[u8], i: u8) -> u8
    ensures { (result ≡ price_giver row.now i) × (result < 8) }
{
    ascii::byte(row, PRICE_GIVER + usize::from(i) * ENTRY_SIZE) % limits::VARIABLE_COUNT
}

pub fn price_kind(row: &[u8], i: u8) -> u8
    ensures { result ≡ price_kind row.now i }
{
    ascii::byte(row, PRICE_KIND + usize::from(i) * ENTRY_SIZE)
}

pub fn price_receiver(row: &[u8], i: u8) -> u8
    ensures { result ≡ price_receiver row.now i }
{
    ascii::byte(row, PRICE_RECEIVER + usize::from(i) * ENTRY_SIZE)
}

// Condition i, from 0: the group and two names.

pub fn group_asked(row: &[u8], i: u8) -> u8
    ensures { result ≡ group_asked row.now i }
{
    ascii::byte(row, GROUP_ASKED + usize::from(i) * ENTRY_SIZE)
}

pub fn first_name(row: &[u8], i: u8) -> u8
    ensures { result ≡ first_name row.now i }
{
    ascii::byte(row, FIRST_NAME + usize::from(i) * ENTRY_SIZE)
}

pub fn second_name(row: &[u8], i: u8) -> u8
    ensures { result ≡ second_name row.now i }
{
    ascii::byte(row, SECOND_NAME + usize::from(i) * ENTRY_SIZE)
}

// ---- an entry read

pub fn price_of(entry: &Entry) -> Price
    ensures { result ≡ price_of entry.now }
{
    let [giver, kind, receiver] = *entry;
    Price {
        giver: variable_of(giver),
        kind,
        receiver: name_of(receiver),
    }
}

// The first byte is its group, or 0 where it has none.
pub fn condition_of(entry: &Entry) -> Condition
    ensures { result ≡ condition_of entry.now }
{
    let [group, first, second] = *entry;
    if group == 0 {
        return Condition::SameIssuer(name_of(first), name_of(second));
    }
    Condition::InGroup(group, name_of(second))
}

// ---- a rule's row written

// A price's bytes; zeros for none.
fn price_bytes(price: Option<Price>) -> Entry
    ensures { result ≡ price_bytes price }
{
    match price {
        Some(p) => [p.giver.number, p.kind, name_byte(p.receiver)],
        None => [0; ENTRY_SIZE],
    }
}

// A condition's bytes; zeros for none.
fn condition_bytes(condition: Option<Condition>) -> Entry
    ensures { result ≡ condition_bytes condition }
{
    let Some(condition) = condition else {
        return [0; ENTRY_SIZE];
    };
    match condition {
        Condition::InGroup(group, name) => [group, 0, name_byte(name)],
        Condition::SameIssuer(first, second) => [0, name_byte(first), name_byte(second)],
    }
}

// How many there are: by a loop, since `filter` and `count` take 13 % more instructions to read 4 KB of rules.
fn count<T>(entries: &[Option<T>]) -> usize
    ensures { result ≡ count_by is_some entries.now }
{
    let mut n = 0;
    for entry in entries {
        if entry.is_some() {
            n += 1;
        }
    }
    n
}

// The row of a rule line that has the form.
pub(crate) fn row_of(form: RuleForm) -> RuleRow
    ensures { result ≡ row_of form }
{
    let mut row = [0; RULE_ROW];
    row[OWNER] = form.head.owner;
    row[KIND] = form.head.kind;
    row[HEAD] = form.head.receiver.number;
    // By `as`: a count is 4 at most, and a `try_from` would have to be unwrapped.
    row[PRICE_COUNT] = count(&form.prices) as u8;
    row[CONDITION_COUNT] = count(&form.conditions) as u8;
    row[PRICES..CONDITIONS].copy_from_slice(form.prices.map(price_bytes).as_flattened());
    row[CONDITIONS..SPARE].copy_from_slice(form.conditions.map(condition_bytes).as_flattened());
    row
}

// ---- the tables written

// One card more. The bytes of its groups are as they were.
pub(crate) fn add_card(cards: &mut CardTable, number: CardNumber)
    requires { card_count cards.old < card_limit }
    ensures { CardAdded (digits_in number) cards.old cards.new }
{
    let m = card_count(cards) + 1;
    let at = usize::from(m) * CARD_ROW;
    cards[at + LENGTH] = number.count;
    cards[at + DIGITS..at + DIGITS + MOST_DIGITS].copy_from_slice(&number.digits);
    cards[COUNT] = m;
}

// Card m is in the group.
pub(crate) fn add_member(cards: &mut CardTable, group: u8, m: u8)
    requires { ((1 ≤ group) × (group ≤ group_count)) × ((1 ≤ m) × (m ≤ card_limit)) }
    ensures { MemberAdded group m cards.old cards.new }
{
    let at = usize::from(m) * CARD_ROW + (BEFORE_GROUPS + usize::from(group));
    cards[at] = 1;
}

// One rule more.
pub(crate) fn add_rule(rules: &mut RuleTable, row: &RuleRow)
    requires { rule_count rules.old < rule_limit }
    ensures { RuleAdded row.now rules.old rules.new }
{
    let n = rule_count(rules) + 1;
    let at = usize::from(n) * RULE_ROW;
    rules[at..at + RULE_ROW].copy_from_slice(row);
    rules[COUNT] = n;
}

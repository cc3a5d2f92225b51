// The forms of a rule text's lines, without their LF: question 2; and card numbers: question 4.

#![tactic(auto)]

mod cards;
mod groups;
mod numbers;
mod rules;

pub use cards::{CardLine, card_line};
pub use groups::{GroupLine, group_line};
pub use numbers::CardNumber;
pub use rules::{Condition, Head, Price, RuleForm, rule_form};

// The limits as lengths: by `as`, since a constant calls no `From`.
const LEAST_DIGITS: usize = limits::LEAST_DIGITS as usize;

pub const MOST_DIGITS: usize = limits::MOST_DIGITS as usize;

const PRICE_LIMIT: usize = limits::PRICE_LIMIT as usize;

const CONDITION_LIMIT: usize = limits::CONDITION_LIMIT as usize;

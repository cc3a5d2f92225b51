// Whom a rule's line names.
ghost use Rattle.std.specs.Prelude.{◌<◌};
ghost use Rattle.model.specs.Limits.{variable_count};

// A variable, a to h numbered from 0.
#[derive(Clone, Copy, Debug, PartialEq, Eq)]
pub struct Variable {
    pub number: u8,
    ghost few: { number < variable_count },
}

// A variable, or `*`, the rule's owner.
#[derive(Clone, Copy, Debug, PartialEq, Eq)]
pub enum Name {
    Variable(Variable),
    Owner,
}

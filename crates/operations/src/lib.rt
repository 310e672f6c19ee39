// What the operations answer.
#![tactic(auto)]

ghost use Rattle.std.specs.Prelude.{◌≡◌};
ghost use Rattle.operations.specs.declared.Refusal.TheVariants as refusals;
ghost use Rattle.operations.specs.Answers.{number_of, stop_of, stop_number, stop_place};

use acceptance::Test;
use descriptor::address::SegmentAddress;
use std::error::Error;
use std::fmt;

// The test of document 01's table that refused a call: one of those that accept a segment, or one of the operation's own.
#[derive(Clone, Copy, Debug, PartialEq, Eq)]
pub enum Refusal {
    Test(Test),
    Parts,
    Function,
    Global,
    Undefined,
    Value,
    Full,
    Table,
}

impl Refusal {
    // Its number in the table.
    pub fn number(self) -> u8
        ensures { result ≡ number_of self }
    {
        match self {
            Refusal::Test(test) => test.number(),
            Refusal::Parts => 19,
            Refusal::Function => 20,
            Refusal::Global => 21,
            Refusal::Undefined => 22,
            Refusal::Value => 23,
            Refusal::Full => 24,
            Refusal::Table => 26,
        }
    }
}

impl From<Test> for Refusal {
    ghost from_gives = { λ test refused. refused ≡ refusals.Test test };

    fn from(test: Test) -> Refusal {
        Refusal::Test(test)
    }
}

impl fmt::Display for Refusal {
    fn fmt<W: fmt::Write>(&self, f: &mut fmt::Formatter<W>) -> fmt::Result {
        write!(f, "refused by test {}", self.number())
    }
}

impl Error for Refusal {}

// What a look sees: a scalar's word, or the block of an array.
#[derive(Clone, Copy)]
pub enum Looked {
    Scalar(u32),
    Array(SegmentAddress),
}

// What halts a replay: a record's load or run was refused, or its run trapped, or there is no record. With the place of its first byte.
#[derive(Clone, Copy, Debug, PartialEq, Eq)]
pub enum Halt {
    Refused(Refusal, usize),
    Trapped(usize),
    Malformed(usize),
}

impl Halt {
    // What a replay is said to return: the refusal's number, 3 for a trap, 25 for what is no record.
    pub fn number(self) -> u8
        ensures { result ≡ stop_number (stop_of self) }
    {
        match self {
            Halt::Refused(refusal, _) => refusal.number(),
            Halt::Trapped(_) => 3,
            Halt::Malformed(_) => 25,
        }
    }

    pub fn place(self) -> usize
        ensures { result ≡ stop_place (stop_of self) }
    {
        match self {
            Halt::Refused(_, place) => place,
            Halt::Trapped(place) => place,
            Halt::Malformed(place) => place,
        }
    }
}

impl fmt::Display for Halt {
    fn fmt<W: fmt::Write>(&self, f: &mut fmt::Formatter<W>) -> fmt::Result {
        match self {
            Halt::Refused(refusal, place) => write!(f, "{refusal} at {place}"),
            Halt::Trapped(place) => write!(f, "trapped at {place}"),
            Halt::Malformed(place) => write!(f, "no record at {place}"),
        }
    }
}

impl Error for Halt {}

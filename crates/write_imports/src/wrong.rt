// What can be wrong with a line, and the words that say so.
use line_tool::fault::{Fault, Misread};
use line_tool::pen::Pen;
use line_tool::tokens::Token;

#[derive(Clone, Copy, Debug, PartialEq, Eq)]
pub enum Wrong {
    // As any line may be.
    Text(Fault),
    NoRecord,
    NumberLimit,
    ElementLimit,
    Rank,
    Elements,
    // The number of elements, and the product of the lengths.
    Count(usize, u32),
}

// What is wrong, and the token that it is about.
#[derive(Clone, Copy, Debug, PartialEq, Eq)]
pub struct Refused {
    pub wrong: Wrong,
    pub token: Token,
}

impl From<Misread> for Refused {
    fn from(misread: Misread) -> Refused {
        Refused {
            wrong: Wrong::Text(misread.fault),
            token: misread.token,
        }
    }
}

pub fn put_wrong(pen: &mut Pen, wrong: Wrong) {
    match wrong {
        Wrong::Text(fault) => pen.fault(fault),
        Wrong::NoRecord => pen.text(b"neither load nor run"),
        Wrong::NumberLimit => pen.text(b"a number above 268435455"),
        Wrong::ElementLimit => pen.text(b"an element above 8388607"),
        Wrong::Rank => pen.text(b"a rank above 15"),
        Wrong::Elements => pen.text(b"more than 16384 elements"),
        Wrong::Count(count, wanted) => put_count(pen, count, wanted),
    }
}

// A product beyond 65,535 is told as 65,536.
fn put_count(pen: &mut Pen, count: usize, wanted: u32) {
    pen.text(b"the number of elements is ");
    pen.decimal((count % 0x1_0000_0000) as u32);
    pen.text(b", the product of the lengths ");
    pen.decimal(wanted);
    if 65536 <= wanted {
        pen.text(b" or more");
    }
}

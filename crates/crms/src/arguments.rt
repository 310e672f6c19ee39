// What stands after a command's word.
use line_tool::command::is;
use line_tool::fault::{Fault, Misread};
use line_tool::list::{Listed, numbers_at};
use line_tool::number::Base;
use line_tool::tokens::{Token, text, token_at};
use std::alloc::AllocError;

// Why a command is not obeyed.
#[derive(Debug, Drop)]
pub enum Refusal {
    Misread(Misread),
    NoMemory(AllocError),
}

impl From<Misread> for Refusal {
    fn from(wrong: Misread) -> Refusal {
        Refusal::Misread(wrong)
    }
}

impl From<AllocError> for Refusal {
    fn from(why: AllocError) -> Refusal {
        Refusal::NoMemory(why)
    }
}

// A line from a place on.
#[derive(Clone, Copy)]
pub struct Arguments<'a> {
    pub line: &'a [u8],
    pub at: usize,
}

impl<'a> Arguments<'a> {
    pub fn first(self) -> Token {
        token_at(self.line, self.at)
    }

    pub fn text(self, token: Token) -> &'a [u8] {
        text(self.line, token)
    }

    pub fn after(self, at: usize) -> Arguments<'a> {
        Arguments {
            line: self.line,
            at,
        }
    }

    // No more numbers can be there: each but the last takes two bytes at least.
    pub fn most(self) -> usize {
        self.line.len().saturating_sub(self.at) / 2 + 1
    }

    // So many decimal numbers and nothing else.
    pub fn only<const N: usize>(self) -> Result<[u32; N], Misread> {
        let mut numbers = [0u32; N];
        self.decimals(N, &mut numbers)?.end()?;
        Ok(numbers)
    }

    // So many decimal numbers; what stands after them.
    pub fn decimals(self, count: usize, numbers: &mut [u32]) -> Result<Arguments<'a>, Misread> {
        let listed = numbers_at(Base::Decimal, self.line, self.at, count, numbers)?;
        let rest = self.after(listed.next);
        if listed.count < count {
            return Err(rest.missing());
        }
        Ok(rest)
    }

    // So many lengths and the bar; what stands after it.
    pub fn lengths(self, rank: usize, numbers: &mut [u32]) -> Result<Arguments<'a>, Misread> {
        let rest = self.decimals(rank, numbers)?;
        let bar = rest.first();
        if !is(rest.text(bar), b"|") {
            return Err(wrong(Fault::NoBar, bar));
        }
        Ok(rest.after(bar.end))
    }

    // At most so many words.
    pub fn words(self, most: usize, words: &mut [u32]) -> Result<Listed, Misread> {
        numbers_at(Base::Hex, self.line, self.at, most, words)
    }

    // Nothing else.
    pub fn end(self) -> Result<(), Misread> {
        let token = self.first();
        if token.is_empty() {
            return Ok(());
        }
        Err(wrong(Fault::Extra, token))
    }

    pub fn missing(self) -> Misread {
        wrong(
            Fault::Missing,
            Token {
                start: self.at,
                end: self.at,
            },
        )
    }
}

pub fn wrong(fault: Fault, token: Token) -> Misread {
    Misread { fault, token }
}

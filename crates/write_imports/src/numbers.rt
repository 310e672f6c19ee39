// The numbers of a line, none of them above its limit.
ghost use Rattle.std.specs.Prelude.{◌≡◌};
ghost use Rattle.write_imports.specs.Lines as meaning;

use crate::wrong::{Refused, Wrong};
use line_tool::fault::Fault;
use line_tool::number::decimal;
use line_tool::tokens::{text, token_at};

// What a number may be at most: what a file can say, or the greatest integer.
#[derive(Clone, Copy)]
pub enum Limit {
    Number,
    Element,
}

// How many numbers a text has from a place on, put into `out` in order; `more` where they are more than fit.
pub fn numbers_from(
    limit: Limit,
    line: &[u8],
    from: usize,
    more: Wrong,
    out: &mut [u32],
) -> Result<usize, Refused>
    ensures { meaning.Holds (meaning.limit_of limit) result out.new }
{
    let mut at = from;
    for n in 0..out.len() {
        let token = token_at(line, at);
        if token.is_empty() {
            return Ok(n);
        }
        match number_in(limit, text(line, token)) {
            Err(wrong) => return Err(Refused { wrong, token }),
            Ok(value) => out[n] = value,
        }
        at = token.end;
    }
    let token = token_at(line, at);
    if token.is_empty() {
        return Ok(out.len());
    }
    Err(Refused { wrong: more, token })
}

pub fn number_in(limit: Limit, word: &[u8]) -> Result<u32, Wrong>
    ensures { meaning.Below (meaning.limit_of limit) result }
{
    match decimal(word) {
        Err(fault) => Err(no_number(limit, fault)),
        Ok(value) => {
            if most(limit) < value {
                return Err(above(limit));
            }
            Ok(value)
        }
    }
}

fn most(limit: Limit) -> u32
    ensures { result ≡ meaning.limit_of limit }
{
    match limit {
        Limit::Number => 0x0FFF_FFFF,
        Limit::Element => 0x007F_FFFF,
    }
}

// A number beyond 32 bits is above any limit.
fn no_number(limit: Limit, fault: Fault) -> Wrong {
    match fault {
        Fault::TooLarge => above(limit),
        _ => Wrong::Text(fault),
    }
}

fn above(limit: Limit) -> Wrong {
    match limit {
        Limit::Number => Wrong::NumberLimit,
        Limit::Element => Wrong::ElementLimit,
    }
}

// Numbers that follow one another in a line.
ghost use Rattle.std.specs.Prelude.{◌≡◌};
ghost use Rattle.line_tool.specs.Lists as meaning;

use crate::fault::{Fault, Misread};
use crate::number::{Base, number_in};
use crate::tokens::{text, token_at};

// How many numbers there are, and the place after the last.
#[derive(Clone, Copy, Debug, PartialEq, Eq)]
pub struct Listed {
    pub count: usize,
    pub next: usize,
}

// The numbers from a place on, at most so many, put into out in order.
pub fn numbers_at(
    base: Base,
    line: &[u8],
    from: usize,
    most: usize,
    out: &mut [u32],
) -> Result<Listed, Misread>
    ensures { meaning.listing result out.new ≡ meaning.numbers_at base line.now most from 0 out.old }
{
    let mut next = from;
    let mut count = 0;
    for _ in 0..most {
        let token = token_at(line, next);
        if token.is_empty() {
            return Ok(Listed { count, next });
        }
        match number_in(base, text(line, token)) {
            Err(fault) => return Err(Misread { fault, token }),
            Ok(value) => {
                if out.len() <= count {
                    return Err(Misread {
                        fault: Fault::PastEnd,
                        token,
                    });
                }
                out[count] = value;
                count += 1;
                next = token.end;
            }
        }
    }
    Ok(Listed { count, next })
}

// The commands that set what the operations are lent.
use crate::arguments::{Arguments, Refusal, wrong};
use crate::session::Session;
use line_tool::bytes::{count, put_bytes};
use line_tool::command::is;
use line_tool::fault::Fault;
use segment::put_all;
use std::alloc::{AllocError, Global};

// The most words of a data segment.
const WORDS: u32 = 40000;

// The most bytes of a procedure segment, of the file of imports and of a table of operators.
const PROCEDURE: usize = 40000;

const FILE: usize = 100000;

const TABLE: usize = 1000;

impl Session {
    // A data segment of so many words, all 0.
    pub fn set_segment(&mut self, arguments: Arguments<'_>) -> Result<(), Refusal> {
        let [n] = arguments.only::<1>()?;
        if WORDS < n {
            return Err(wrong(Fault::TooManyWords, arguments.first()).into());
        }
        self.words = zero_words(self.alloc, n as usize)?;
        Ok(())
    }

    // At most so many words, from an index that the line names.
    pub fn set_words(&mut self, most: usize, arguments: Arguments<'_>) -> Result<(), Refusal> {
        let mut index = [0; 1];
        let rest = arguments.decimals(1, &mut index)?;
        let index = index[0] as usize;
        if self.words.len() <= index {
            return Err(wrong(Fault::PastEnd, arguments.first()).into());
        }
        let mut words = zero_words(self.alloc, self.words.len() - index)?;
        let listed = rest.words(most, &mut words)?;
        let rest = rest.after(listed.next);
        if listed.count == 0 {
            return Err(rest.missing().into());
        }
        rest.end()?;
        words.truncate(listed.count);
        put_all(&mut self.words, index, &words);
        Ok(())
    }

    pub fn set_regular(&mut self, arguments: Arguments<'_>) -> Result<(), Refusal> {
        self.regular = bytes(self.alloc, arguments, PROCEDURE, Fault::TooManyBytes)?;
        Ok(())
    }

    pub fn set_alternate(&mut self, arguments: Arguments<'_>) -> Result<(), Refusal> {
        self.alternate = bytes(self.alloc, arguments, PROCEDURE, Fault::TooManyBytes)?;
        Ok(())
    }

    pub fn set_file(&mut self, arguments: Arguments<'_>) -> Result<(), Refusal> {
        self.file = bytes(self.alloc, arguments, FILE, Fault::LongFile)?;
        Ok(())
    }

    pub fn set_table(&mut self, arguments: Arguments<'_>) -> Result<(), Refusal> {
        let token = arguments.first();
        if is(arguments.text(token), b"manual") {
            arguments.after(token.end).end()?;
            self.table = None;
            return Ok(());
        }
        self.table = Some(bytes(self.alloc, arguments, TABLE, Fault::LongTable)?);
        Ok(())
    }
}

// The bytes that the line writes, at most so many; the fault where there are more.
fn bytes(
    alloc: Global,
    arguments: Arguments<'_>,
    most: usize,
    more: Fault,
) -> Result<Vec<u8>, Refusal> {
    let token = arguments.first();
    let word = arguments.text(token);
    let n = match count(word, most, more) {
        Ok(n) => n,
        Err(fault) => return Err(wrong(fault, token).into()),
    };
    arguments.after(token.end).end()?;
    let mut bytes = vec![in alloc; 0u8; n]?;
    put_bytes(word, &mut bytes);
    Ok(bytes)
}

pub fn zero_words(alloc: Global, n: usize) -> Result<Vec<u32>, AllocError> {
    vec![in alloc; 0u32; n]
}

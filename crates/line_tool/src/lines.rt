// A line of a file, put together as the file is read.
ghost use Rattle.std.specs.Prelude.{◌≡◌, ◌<◌, false, cond, [], is_ok, OnErr, option_map, length};
ghost use Rattle.std.specs.Result.{result_map_both};
ghost use Rattle.line_tool.specs.Lines as meaning;

use crate::fault::{Fault, Misread};
use crate::tokens::{is_passed_over, token_at};
use std::alloc::{AllocError, Global};

// A line may have all words of a data segment, all bytes of a file of imports or all elements of a record, with room to spare.
const LONGEST: usize = 262144;

// The line that is being read: of one that is too long the beginning.
#[derive(Drop)]
pub struct Line {
    bytes: Vec<u8>,
    long: bool,
}

impl Line {
    pub fn new(alloc: Global) -> Self
        ensures { meaning.line_of result ≡ meaning.kept [] false }
    {
        Line {
            bytes: Vec::new(alloc),
            long: false,
        }
    }

    pub fn push(&mut self, byte: u8) -> Result<(), AllocError>
        ensures line { let old = meaning.line_of self.old in meaning.line_of self.new ≡ cond (is_ok result) (meaning.with_byte old byte) old }
        ensures full { OnErr result (length self.old.bytes.items < 262144) }
    {
        self.extend(&[byte])
    }

    // The bytes of a part of the line.
    pub fn extend(&mut self, part: &[u8]) -> Result<(), AllocError>
        ensures line { let old = meaning.line_of self.old in meaning.line_of self.new ≡ cond (is_ok result) (meaning.with_part old part.now) old }
        ensures full { OnErr result (length self.old.bytes.items < 262144) }
    {
        let n = part.len().min(LONGEST.saturating_sub(self.bytes.len()));
        self.bytes.extend_from_slice(&part[..n])?;
        if n < part.len() {
            self.long = true;
        }
        Ok(())
    }

    pub fn clear(&mut self)
        ensures { meaning.line_of self.new ≡ meaning.kept [] false }
    {
        self.bytes.clear();
        self.long = false;
    }

    pub fn bytes(&self) -> &[u8]
        ensures { result.now ≡ self.now.bytes.items }
    {
        &self.bytes
    }

    // Its bytes, if it says anything. Of a line that is too long only the beginning is known: it may be passed over as a comment,
    // but not as a blank line.
    pub fn text(&self) -> Result<Option<&[u8]>, Misread>
        ensures { result_map_both (λ line. option_map (λ bytes. bytes.now) line) (λ wrong. wrong) result ≡ meaning.said (meaning.line_of self.now) }
    {
        let passed_over = is_passed_over(&self.bytes);
        if self.long {
            let first = token_at(&self.bytes, 0);
            if !passed_over || first.is_empty() {
                return Err(Misread {
                    fault: Fault::LongLine,
                    token: first,
                });
            }
            return Ok(None);
        }
        if passed_over {
            return Ok(None);
        }
        Ok(Some(&self.bytes))
    }
}

#[cfg(test)]
mod tests {
    use super::*;

    // A line of so many bytes, blanks but for the first.
    fn of_length(alloc: Global, count: usize) -> Result<Line, AllocError> {
        let mut line = Line::new(alloc);
        for i in 0..count {
            line.push(if i == 0 { b'x' } else { b' ' })?;
        }
        Ok(line)
    }

    #[test]
    fn a_line_is_kept(rt: HostRuntime) -> Result<(), AllocError> {
        let mut line = Line::new(rt.alloc());
        for &byte in b"run 0" {
            line.push(byte)?;
        }
        assert!(rt; matches!(line.text(), Ok(Some(b"run 0"))));
        line.clear();
        assert!(rt; matches!(line.text(), Ok(None)));
        Ok(())
    }

    #[test]
    fn one_byte_too_many(rt: HostRuntime) -> Result<(), AllocError> {
        let mut line = of_length(rt.alloc(), 262144)?;
        assert!(rt; matches!(line.text(), Ok(Some(_))));
        line.push(b'y')?;
        assert_eq!(rt; line.bytes().len(), 262144);
        assert_eq!(rt;
            line.text().err().map(|wrong| wrong.fault),
            Some(Fault::LongLine)
        );
        Ok(())
    }
}

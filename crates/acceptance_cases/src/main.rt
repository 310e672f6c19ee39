// Judges the data segments of standard input, a case each, and writes the table's number for every one. The file stdout has
// the answers of a model of the table (make_cases.py, which says what the lines of stdin mean).
#![tactic(auto)]

ghost use Rattle.std.specs.Prelude.{◌≡◌, length};

use acceptance::Test;
use case_lines::{number, put_words};
use line_tool::pen::Pen;
use line_tool::streams::{STDIN, STDOUT};

// There is room for segments that are a little too long, which are to be refused.
#[derive(Drop)]
struct Segments {
    seg: [u32; 16400],
    regular: [u8; 32800],
    alternate: [u8; 32800],
}

// A line has 64 characters.
fn main() {
    let mut text = io::large_buffer();
    let n = io::read_full(STDIN, &mut text);
    let mut pen = Pen::new(STDOUT);
    let mut segments = Segments {
        seg: [0; 16400],
        regular: [0; 32800],
        alternate: [0; 32800],
    };
    for line in text[..n].chunks_exact(64) {
        segments.obey(&mut pen, line);
    }
}

impl Segments {
    fn obey(&mut self, pen: &mut Pen, line: &[u8])
        requires { length line.now ≡ 64 }
    {
        let index = number(&line[2..6]) as usize;
        let value = number(&line[7..15]);
        match line[0] {
            b's' => segment::put(&mut self.seg, index, value),
            b'r' => put_words(&mut self.regular, index, &[value]),
            b'a' => put_words(&mut self.alternate, index, &[value]),
            _ => self.judge(pen, &line[16..64], index, value),
        }
    }

    // The first `words` words with as many bytes as the halves of `lengths` say; nothing where there are not so many.
    fn judge(&self, pen: &mut Pen, name: &[u8], words: usize, lengths: u32) {
        let Some(seg) = self.seg.get(..words) else {
            return;
        };
        let Some(regular) = self.regular.get(..(lengths / 0x1_0000) as usize) else {
            return;
        };
        let Some(alternate) = self.alternate.get(..(lengths % 0x1_0000) as usize) else {
            return;
        };
        pen.decimal(table_number(acceptance::judge(seg, regular, alternate)));
        pen.text(b" ");
        pen.text(name);
        pen.flush();
    }
}

fn table_number(answer: Result<(), Test>) -> u32 {
    match answer {
        Ok(()) => 0,
        Err(test) => test.number() as u32,
    }
}

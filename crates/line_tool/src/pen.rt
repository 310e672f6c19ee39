// Answers on their way to a stream, by way of a buffer that is written out where the next part may have no room in it.
ghost use Rattle.std.specs.Prelude.{◌≡◌, [], true, false, not, length};
ghost use Rattle.line_tool.specs.Text.{bytes};
ghost use Rattle.line_tool.specs.Writing as writing;
ghost use Rattle.line_tool.specs.Faults.{fault_text, shown};
ghost use Rattle.line_tool.specs.Explain.{last_text};
ghost use Rattle.line_tool.specs.Pens.{in_hand, is_short, room_made, put_within, put_text, put_numbers, numbers_short, Stays};

use crate::explain::{Last, put_last};
use crate::fault::{Fault, put_fault, put_token};
use crate::number::Base;
use crate::writing::{put, put_decimal, put_hex};

#[derive(Drop)]
pub struct Pen {
    stream: i32,
    buffer: [u8; 4096],
    held: usize,
    // Was a write refused? Nothing is written after that.
    failed: bool,
}

impl Pen {
    pub fn new(stream: i32) -> Self
        ensures hand { in_hand result ≡ [] }
        ensures stream { result.stream ≡ stream }
        ensures failed { result.failed ≡ false }
    {
        Pen {
            stream,
            buffer: io::buffer(),
            held: 0,
            failed: false,
        }
    }

    pub fn text(&mut self, text: &[u8])
        ensures hand { in_hand self.new ≡ put_text (in_hand self.old) text.now }
        ensures stays { Stays self.old self.new (is_short (in_hand self.old) (length text.now)) }
    {
        self.make_room(text.len());
        if self.buffer.len() < text.len() {
            self.write(text);
            return;
        }
        self.held = put(&mut self.buffer, self.held, text);
    }

    pub fn decimal(&mut self, n: u32)
        ensures hand { in_hand self.new ≡ put_within 10 (in_hand self.old) (writing.decimal n) }
        ensures stays { Stays self.old self.new (is_short (in_hand self.old) 10) }
    {
        self.make_room(10);
        self.held = put_decimal(&mut self.buffer, self.held, n);
    }

    pub fn hex(&mut self, w: u32)
        ensures hand { in_hand self.new ≡ put_within 8 (in_hand self.old) (writing.hex w) }
        ensures stays { Stays self.old self.new (is_short (in_hand self.old) 8) }
    {
        self.make_room(8);
        self.held = put_hex(&mut self.buffer, self.held, w);
    }

    // Numbers, each after a blank.
    pub fn numbers(&mut self, base: Base, numbers: &[u32])
        ensures hand { in_hand self.new ≡ put_numbers base (in_hand self.old) numbers.now }
        ensures stays { Stays self.old self.new (numbers_short base (in_hand self.old) numbers.now) }
    {
        for &n in numbers {
            self.text(b" ");
            match base {
                Base::Decimal => self.decimal(n),
                Base::Hex => self.hex(n),
            }
        }
    }

    pub fn fault(&mut self, fault: Fault)
        ensures hand { in_hand self.new ≡ put_within 64 (in_hand self.old) (bytes (fault_text fault)) }
        ensures stays { Stays self.old self.new (is_short (in_hand self.old) 64) }
    {
        self.make_room(64);
        self.held = put_fault(&mut self.buffer, self.held, fault);
    }

    pub fn token(&mut self, token: &[u8])
        ensures hand { in_hand self.new ≡ put_within 42 (in_hand self.old) (shown token.now) }
        ensures stays { Stays self.old self.new (is_short (in_hand self.old) 42) }
    {
        self.make_room(42);
        self.held = put_token(&mut self.buffer, self.held, token);
    }

    pub fn last(&mut self, last: Last)
        ensures hand { in_hand self.new ≡ put_within 256 (in_hand self.old) (last_text last) }
        ensures stays { Stays self.old self.new (is_short (in_hand self.old) 256) }
    {
        self.make_room(256);
        self.held = put_last(&mut self.buffer, self.held, last);
    }

    // Has the stream taken the line, and all before it?
    pub fn end_line(&mut self) -> bool
        ensures hand { in_hand self.new ≡ [] }
        ensures stays { Stays self.old self.new true }
        ensures taken { result ≡ not self.new.failed }
    {
        self.text(b"\n");
        self.flush()
    }

    // Has the stream taken all of it?
    pub fn flush(&mut self) -> bool
        ensures hand { in_hand self.new ≡ [] }
        ensures stays { Stays self.old self.new true }
        ensures taken { result ≡ not self.new.failed }
    {
        let n = self.held.min(self.buffer.len());
        if !self.failed {
            self.failed = !io::write_all(self.stream, &self.buffer[..n]);
        }
        self.held = 0;
        !self.failed
    }

    fn make_room(&mut self, n: usize)
        ensures hand { in_hand self.new ≡ room_made (in_hand self.old) n }
        ensures stays { Stays self.old self.new (is_short (in_hand self.old) n) }
    {
        if self.buffer.len().saturating_sub(self.held) < n {
            self.flush();
        }
    }

    fn write(&mut self, text: &[u8])
        ensures hand { in_hand self.new ≡ in_hand self.old }
        ensures stays { Stays self.old self.new true }
    {
        if !self.failed {
            self.failed = !io::write_all(self.stream, text);
        }
    }
}

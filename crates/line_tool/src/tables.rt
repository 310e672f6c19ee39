// The lines of a text.
ghost use Rattle.std.specs.Prelude.{◌≡◌, ◌-◌, ◌≤◌, ◌<◌, cond, eqb, length, drop};
ghost use Rattle.line_tool.specs.Tables as meaning;

use crate::tokens::line_end;

// Line k of a text, without its line feed; past the last line it is empty.
pub fn line(text: &[u8], k: usize) -> &[u8]
    ensures { result.now ≡ meaning.text_line k text.now }
{
    let start = line_start(text, k);
    let end = line_end(text, start);
    &text[start..end]
}

// Where line k begins.
fn line_start(text: &[u8], k: usize) -> usize
    ensures { (result ≤ length text.now) × (meaning.text_line 0 (drop result text.now) ≡ meaning.text_line k text.now) }
{
    let mut left = k;
    for (i, &b) in text.iter().enumerate() {
        if left == 0 {
            return i;
        }
        left = lines_left(left, b);
    }
    text.len()
}

// How many lines are still to be passed after a byte.
fn lines_left(left: usize, b: u8) -> usize
    requires { 0 < left }
    ensures { result ≡ cond (eqb b 10) (left - 1) left }
{
    if b == b'\n' { left - 1 } else { left }
}

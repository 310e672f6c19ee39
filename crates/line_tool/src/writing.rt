// Answers written into a buffer from a place on. What has no room is left out, and the place after what was written is
// returned.
ghost use Rattle.std.specs.Prelude.{◌≡◌, ◌≤◌, length, drop};
ghost use Rattle.line_tool.specs.Writing as meaning;

pub fn put(out: &mut [u8], at: usize, text: &[u8]) -> usize
    ensures { meaning.wrote result out.new ≡ meaning.writes out.old at text.now }
{
    let mut to = at;
    for &b in text {
        if out.len() <= to {
            return to;
        }
        out[to] = b;
        to += 1;
    }
    to
}

pub fn put_decimal(out: &mut [u8], at: usize, n: u32) -> usize
    ensures { meaning.wrote result out.new ≡ meaning.writes out.old at (meaning.decimal n) }
{
    let mut digits = [0u8; 10];
    let first = decimal_digits(n, &mut digits);
    put(out, at, &digits[first..])
}

pub fn put_hex(out: &mut [u8], at: usize, w: u32) -> usize
    ensures { meaning.wrote result out.new ≡ meaning.writes out.old at (meaning.hex w) }
{
    let digits = hex_digits(w);
    put(out, at, &digits)
}

// The digits of n stand at the end; where the first of them stands.
fn decimal_digits(n: u32, digits: &mut [u8]) -> usize
    requires { length digits.old ≡ 10 }
    ensures { (result ≤ 10) × (length digits.new ≡ 10) × (drop result digits.new ≡ meaning.decimal n) }
{
    let mut rest = n;
    for at in (0..10).rev() {
        digits[at] = b'0' + (rest % 10) as u8;
        rest /= 10;
        if rest == 0 {
            return at;
        }
    }
    0
}

fn hex_digits(w: u32) -> [u8; 8]
    ensures { result ≡ meaning.hex w }
{
    [
        glyph(w / 0x1000_0000),
        glyph(w / 0x100_0000),
        glyph(w / 0x10_0000),
        glyph(w / 0x1_0000),
        glyph(w / 0x1000),
        glyph(w / 0x100),
        glyph(w / 0x10),
        glyph(w),
    ]
}

// The last HEX digit of a number.
fn glyph(n: u32) -> u8
    ensures { result ≡ meaning.glyph n }
{
    let d = (n % 16) as u8;
    if d < 10 { b'0' + d } else { b'a' - 10 + d }
}

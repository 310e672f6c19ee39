// Big-endian numbers of a lent procedure segment. Past the end every byte reads as 0.
ghost use Rattle.std.specs.Prelude.{◌≡◌, ◌+◌, ◌*◌, ◌^◌};
ghost use Rattle.procedure.specs.Bytes.{byte_at, half_at, word_at};

pub fn byte_at(p: &[u8], at: usize) -> u8
    ensures { result ≡ byte_at p.now at }
{
    if at < p.len() {
        return p[at];
    }
    0
}

pub fn half_at(p: &[u8], at: u32) -> u16
    ensures { result ≡ half_at p.now at }
{
    let i = at as usize;
    byte_at(p, i) as u16 * 0x100 + byte_at(p, i + 1) as u16
}

pub fn word_at(p: &[u8], at: u32) -> u32
    ensures { result ≡ word_at p.now at }
{
    let i = at as usize;
    if i + 3 < p.len() {
        return word_of(p[i], p[i + 1], p[i + 2], p[i + 3]);
    }
    word_of(
        byte_at(p, i),
        byte_at(p, i + 1),
        byte_at(p, i + 2),
        byte_at(p, i + 3),
    )
}

fn word_of(a: u8, b: u8, c: u8, d: u8) -> u32
    ensures { result ≡ a * 2 ^ 24 + b * 2 ^ 16 + c * 2 ^ 8 + d }
{
    a as u32 * 0x100_0000 + b as u32 * 0x1_0000 + c as u32 * 0x100 + d as u32
}

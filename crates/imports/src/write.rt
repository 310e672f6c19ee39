// Numbers written in groups of seven bits.
ghost use Rattle.std.specs.Prelude.{◌≡◌, ◌+◌, ◌≤◌, length};
ghost use Rattle.std.proofs.lemmas.List.Edits.{sets};
ghost use Rattle.imports.specs.Encoding.{encode_number};

// The bytes of a number below 2^28 from a place on; the place after them.
pub fn write_number(n: u32, out: &mut [u8], at: usize) -> usize
    requires { at + 4 ≤ length out.old }
    ensures out_after { out.new ≡ sets out.old at (encode_number n) }
    ensures value { result ≡ at + length (encode_number n) }
{
    let mut rest = n;
    let mut to = at;
    for _ in 0..4usize {
        if rest < 0x80 {
            out[to] = rest as u8;
            return to + 1;
        }
        out[to] = 0x80 + (rest % 0x80) as u8;
        rest /= 0x80;
        to += 1;
    }
    to
}

// Numbers in groups of seven bits, the low group first. The top bit of a byte means that another group follows.
ghost use Rattle.std.specs.Prelude.{◌≡◌, ◌^◌, ◌<◌, ◌≤◌, get_or, length, IfNone, IfSome};
ghost use Rattle.imports.specs.Numbers as meaning;
ghost use Rattle.imports.specs.Parsing.{read_numbers};

// A number and the place after it, if one stands at the place.
pub fn number_at(file: &[u8], place: usize) -> Option<(u32, usize)>
    ensures { result ≡ meaning.number_at file.now place }
{
    let first = byte_at(file, place)?;
    let after = place + 1;
    if first < 0x80 {
        return Some((first, after));
    }
    let second = byte_at(file, after)?;
    if 0x80 <= second {
        return long_at(file, after + 1, first - 0x80, second - 0x80);
    }
    if second == 0 {
        return None;
    }
    Some((first - 0x80 + 0x80 * second, after + 1))
}

// The number whose two low groups are given: one or two follow.
#[tactic(auto, using(crate::proofs::Numbers::never_ending))]
fn long_at(file: &[u8], place: usize, first: u32, second: u32) -> Option<(u32, usize)>
    requires { (first < 2 ^ 7) × (second < 2 ^ 7) }
    ensures { result ≡ meaning.above first (meaning.above second (meaning.groups_at 2 file.now place)) }
{
    let third = byte_at(file, place)?;
    let after = place + 1;
    if third == 0 {
        return None;
    }
    if third < 0x80 {
        return Some((first + 0x80 * (second + 0x80 * third), after));
    }
    let fourth = byte_at(file, after)?;
    if 0x80 <= fourth {
        return None;
    }
    if fourth == 0 {
        return None;
    }
    Some((
        first + 0x80 * (second + 0x80 * (third - 0x80 + 0x80 * fourth)),
        after + 1,
    ))
}

fn byte_at(file: &[u8], place: usize) -> Option<u32>
    ensures none { IfNone result (length file.now ≤ place) }
    ensures some { IfSome result (λ b. (place < length file.now) × (b ≡ get_or file.now place 0) × (b < 2 ^ 8)) }
{
    file.get(place).map(|&b| b as u32)
}

// Numbers one after the other, none of them above a limit, fill `out`; the place after the last.
pub fn numbers_at(file: &[u8], place: usize, limit: u32, out: &mut [u32]) -> Option<usize>
    ensures { read_numbers result (length out.old) out.new ≡ meaning.several_at limit (length out.old) file.now place }
{
    let mut at = place;
    for word in out.iter_mut() {
        let (n, next) = number_at(file, at)?;
        if limit < n {
            return None;
        }
        *word = n;
        at = next;
    }
    Some(at)
}

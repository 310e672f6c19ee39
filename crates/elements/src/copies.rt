// Loops that write element words.
ghost use Rattle.std.specs.Prelude.{◌≡◌, ◌+◌, ◌≤◌, ◌^◌, length};
ghost use Rattle.manual.specs.Values as values;

use segment::copy;

// The numbers from k on.
pub fn up_from(k: u32, to: &mut [u32])
    requires { k + length to.old ≤ 2 ^ 32 }
    ensures { to.new ≡ values.up_from k (length to.old) }
{
    for i in 0..to.len() {
        to[i] = k + i as u32;
    }
}

// The words of `from`, round and round.
pub fn cycle(from: &[u32], to: &mut [u32])
    requires { length from.now ≡ 0 → length to.old ≡ 0 }
    ensures { to.new ≡ values.cycle (length to.old) from.now }
{
    if from.len() == 1 {
        to.fill(from[0]);
        return;
    }
    rounds(from, to);
}

fn rounds(from: &[u32], to: &mut [u32])
    requires { length from.now ≡ 0 → length to.old ≡ 0 }
    ensures { to.new ≡ values.cycle (length to.old) from.now }
{
    let n = to.len();
    let mut i = 0;
    while i < n {
        let count = from.len().min(n - i);
        copy(&from[..count], &mut to[i..i + count]);
        i += count;
    }
}

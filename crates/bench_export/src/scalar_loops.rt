// Four scalar operators over lent words, for a program in another language to time (bench/scalar). Results go to `out`; the
// answer is how many elements trapped, whose place in `out` is left as it was. Slices of other lengths than `a` are left alone.
ghost use Rattle.std.specs.Prelude.{◌≡◌, ◌<◌, ◌≤◌, length};

use trap::Trap;

#[unsafe(no_mangle)]
pub extern "C" fn scalar_dyadic(suboperation: u32, a: &[u32], b: &[u32], out: &mut [u32]) -> usize {
    if b.len() != a.len() {
        return 0;
    }
    if out.len() != a.len() {
        return 0;
    }
    match suboperation {
        8 => each(|x, y| scalar::sum(x, y), a, b, out),
        10 => each(|x, y| scalar::product(x, y), a, b, out),
        11 => each(|x, y| scalar::quotient(x, y), a, b, out),
        14 => each(|x, y| scalar::less(x, y), a, b, out),
        _ => 0,
    }
}

fn each<F: Fn(u32, u32) -> Result<u32, Trap>>(
    operator: F,
    a: &[u32],
    b: &[u32],
    out: &mut [u32],
) -> usize
    requires lengths { (length b.now ≡ length a.now) × (length out.old ≡ length a.now) }
    requires callable { F.IsAlwaysCallable operator }
{
    let mut traps: usize = 0;
    for (i, &x) in a.iter().enumerate() {
        traps += put(out, i, operator(x, b[i]));
    }
    traps
}

// Stores a word, or counts a trap.
fn put(out: &mut [u32], i: usize, answer: Result<u32, Trap>) -> usize
    requires { i < length out.old }
    ensures counted { result ≤ 1 }
    ensures kept { length out.new ≡ length out.old }
{
    match answer {
        Ok(w) => {
            out[i] = w;
            0
        }
        Err(_) => 1,
    }
}

// An operator of one operand on every element.
ghost use Rattle.std.specs.Prelude.{◌≡◌, ◌≤◌, length, take};
ghost use Rattle.elements.specs.Answers.{results, each_by};

use operator::Monadic;
use trap::Trap;

// At the first trap the words of `out` so far are left.
pub fn monadic(operator: Monadic, a: &[u32], out: &mut [u32]) -> Result<(), Trap>
    requires { length a.now ≤ length out.old }
    ensures { results result (take (length a.now) out.new) ≡ each_by operator a.now }
{
    for (i, w) in a.iter().enumerate() {
        out[i] = scalar::monadic(operator, *w)?;
    }
    Ok(())
}

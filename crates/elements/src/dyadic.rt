// An operator of two operands on every pair of elements; a one-element operand is repeated.
ghost use Rattle.std.specs.Prelude.{◌≡◌, ◌≤◌, length, take};
ghost use Rattle.scalar.specs.Operators as S;
ghost use Rattle.manual.specs.Values as values;
ghost use Rattle.elements.specs.Answers.{results, pairwise_by, Paired};
ghost use Rattle.elements.specs.Parts.{Operands, Relied};

use crate::extension::{extent, pick};
use crate::{comparisons, integers};
use operator::Dyadic;
use trap::Trap;

// The fast loops first, and where they do not serve, the exact one from the start.
pub fn dyadic(op: Dyadic, a: &[u32], b: &[u32], out: &mut [u32]) -> Result<(), Trap>
    requires { Paired a.now b.now × (values.extent a.now b.now ≤ length out.old) }
    ensures { results result (take (values.extent a.now b.now) out.new) ≡ pairwise_by op a.now b.now }
{
    let n = extent(a, b);
    if fast(op, a, b, n, out) {
        return Ok(());
    }
    exact(op, a, b, n, out)
}

// Results of all pairs and true, or false where no fast loop served: its words are then written over.
fn fast(op: Dyadic, a: &[u32], b: &[u32], n: usize, out: &mut [u32]) -> bool
    requires { Operands a.now b.now n × (n ≤ length out.old) }
    ensures { Relied (S.dyadic_of op) result a.now b.now (take n out.new) }
{
    if integers::all(op, a, b, n, out) {
        return true;
    }
    comparisons::all(op, a, b, n, out)
}

// At the first trap the words of `out` so far are left.
fn exact(op: Dyadic, a: &[u32], b: &[u32], n: usize, out: &mut [u32]) -> Result<(), Trap>
    requires { Operands a.now b.now n × (n ≤ length out.old) }
    ensures { results result (take n out.new) ≡ pairwise_by op a.now b.now }
{
    for i in 0..n {
        out[i] = scalar::dyadic(op, pick(a, i), pick(b, i))?;
    }
    Ok(())
}

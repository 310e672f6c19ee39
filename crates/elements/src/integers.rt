// Fast loops for integers, without branches. Each stores every word and keeps which bits it has seen in operands and results, for
// PRODUCT in the products of the magnitudes: where none is above the 23 of an integer, but for the sign, all were integers and
// the words are right. One loop for each operator, for the compiler makes vector code of it, and none where the operator is a
// parameter.
ghost use Rattle.std.specs.Prelude.{◌≤◌, length, take};
ghost use Rattle.scalar.specs.Operators as S;
ghost use Rattle.elements.specs.Parts.{Operands, Relied};

use crate::extension::pick;
use crate::words::{difference_word, plain, product_size, product_word, sum_word};
use operator::Dyadic;
use segment::word;

// The results of n pairs, and true, if the operator has a fast loop and all are integers; else false. Operands that do not
// start with integers are not tried.
pub fn all(operator: Dyadic, a: &[u32], b: &[u32], n: usize, out: &mut [u32]) -> bool
    requires { Operands a.now b.now n × (n ≤ length out.old) }
    ensures { Relied (S.dyadic_of operator) result a.now b.now (take n out.new) }
{
    if !plain(word(a, 0) | word(b, 0)) {
        return false;
    }
    match operator {
        Dyadic::Sum => sum(a, b, n, out),
        Dyadic::Difference => difference(a, b, n, out),
        Dyadic::Product => product(a, b, n, out),
        _ => false,
    }
}

fn sum(a: &[u32], b: &[u32], n: usize, out: &mut [u32]) -> bool
    requires { Operands a.now b.now n × (n ≤ length out.old) }
    ensures { Relied S.sum result a.now b.now (take n out.new) }
{
    let mut seen: u32 = 0;
    let mut i = 0;
    while i < n {
        let x = pick(a, i);
        let y = pick(b, i);
        let w = sum_word(x, y);
        out[i] = w;
        seen = seen | x | y | w;
        i += 1;
    }
    plain(seen)
}

fn difference(a: &[u32], b: &[u32], n: usize, out: &mut [u32]) -> bool
    requires { Operands a.now b.now n × (n ≤ length out.old) }
    ensures { Relied S.difference result a.now b.now (take n out.new) }
{
    let mut seen: u32 = 0;
    let mut i = 0;
    while i < n {
        let x = pick(a, i);
        let y = pick(b, i);
        let d = difference_word(x, y);
        out[i] = d;
        seen = seen | x | y | d;
        i += 1;
    }
    plain(seen)
}

fn product(a: &[u32], b: &[u32], n: usize, out: &mut [u32]) -> bool
    requires { Operands a.now b.now n × (n ≤ length out.old) }
    ensures { Relied S.product result a.now b.now (take n out.new) }
{
    let mut seen: u32 = 0;
    let mut sizes: u64 = 0;
    let mut i = 0;
    while i < n {
        let x = pick(a, i);
        let y = pick(b, i);
        out[i] = product_word(x, y);
        seen = seen | x | y;
        sizes = sizes | product_size(x, y);
        i += 1;
    }
    plain(seen) && sizes < 0x80_0000
}

// Fast loops for LESS and EQUAL, without branches. They go by the places of words, which is right among integers and among
// floats. Which of these the operands are, their first elements say, and the bits that all words have in common or that any
// has tell whether it was so. The compiler makes a loop for each kind.
ghost use Rattle.std.specs.Prelude.{◌≡◌, ◌≤◌, length, take};
ghost use Rattle.scalar.specs.Operators as S;
ghost use Rattle.elements.specs.Parts.{Operands, Relied, one_kind, seen_with};

use crate::extension::pick;
use crate::words::plain;
use operator::Dyadic;
use scalar::order::{is_below, is_level};
use segment::word;

// The results of n pairs, and true, if the operator compares and all are integers or all are floats; else false. Operands
// that do not start so are not tried.
pub fn all(operator: Dyadic, a: &[u32], b: &[u32], n: usize, out: &mut [u32]) -> bool
    requires { Operands a.now b.now n × (n ≤ length out.old) }
    ensures { Relied (S.dyadic_of operator) result a.now b.now (take n out.new) }
{
    let floats = word(a, 0) / 0x4000_0000 % 2 == 1;
    if !one_kind(floats, word(a, 0)) {
        return false;
    }
    if !one_kind(floats, word(b, 0)) {
        return false;
    }
    match operator {
        Dyadic::Less => less(floats, a, b, n, out),
        Dyadic::Equal => equal(floats, a, b, n, out),
        _ => false,
    }
}

fn less(floats: bool, a: &[u32], b: &[u32], n: usize, out: &mut [u32]) -> bool
    requires { Operands a.now b.now n × (n ≤ length out.old) }
    ensures { Relied S.less result a.now b.now (take n out.new) }
{
    let mut seen = word(a, 0);
    let mut i = 0;
    while i < n {
        let x = pick(a, i);
        let y = pick(b, i);
        out[i] = is_below(x, y) as u32;
        seen = seen_with(floats, seen, x, y);
        i += 1;
    }
    one_kind(floats, seen)
}

fn equal(floats: bool, a: &[u32], b: &[u32], n: usize, out: &mut [u32]) -> bool
    requires { Operands a.now b.now n × (n ≤ length out.old) }
    ensures { Relied S.equal result a.now b.now (take n out.new) }
{
    let mut seen = word(a, 0);
    let mut i = 0;
    while i < n {
        let x = pick(a, i);
        let y = pick(b, i);
        out[i] = is_level(x, y) as u32;
        seen = seen_with(floats, seen, x, y);
        i += 1;
    }
    one_kind(floats, seen)
}

// The bits that are in every word, of floats, or in any.
fn seen_with(floats: bool, seen: u32, x: u32, y: u32) -> u32
    ensures { result ≡ seen_with floats seen x y }
{
    if floats { seen & x & y } else { seen | x | y }
}

// Floats all have bit 30, and integers none of bits 30-23.
fn one_kind(floats: bool, seen: u32) -> bool
    ensures { result ≡ one_kind floats seen }
{
    if floats {
        seen / 0x4000_0000 % 2 == 1
    } else {
        plain(seen)
    }
}

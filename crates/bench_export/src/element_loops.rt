// The loops of `elements` for a program in Rust or C: what bench/elements times. 0 is done; a trap is its class times 256
// and its number; 1 says that the lengths do not fit, and nothing is written.
ghost use Rattle.std.specs.Prelude.{◌≡◌, ℕ, Some};
ghost use Rattle.manual.specs.Values.{extent};
ghost use Rattle.elements.specs.Answers.{Paired};

use operator::{Dyadic, Operator, operator_of};
use trap::Trap;

fn number(r: Result<(), Trap>) -> u32 {
    match r {
        Ok(()) => 0,
        Err(t) => t.class as u32 * 256 + t.number as u32,
    }
}

// The operator of two operands with that suboperation number; of any other number, EQUAL.
fn dyadic_of(number: u32) -> Dyadic {
    match operator_of((number % 32) as u8) {
        Some(Operator::Dyadic(op)) => op,
        _ => Dyadic::Equal,
    }
}

#[unsafe(no_mangle)]
pub extern "C" fn elements_dyadic(suboperation: u32, a: &[u32], b: &[u32], out: &mut [u32]) -> u32 {
    let Some(n) = results(a, b) else {
        return 1;
    };
    if 65536 < n || out.len() < n {
        return 1;
    }
    number(elements::dyadic::dyadic(dyadic_of(suboperation), a, b, out))
}

// How many results the operands have, where they have as many elements, or one of them a single element.
fn results(a: &[u32], b: &[u32]) -> Option<usize>
    ensures { (n : ℕ) → result ≡ Some n → Paired a.now b.now × (extent a.now b.now ≡ n) }
{
    if a.len() == 1 {
        return Some(b.len());
    }
    if b.len() == 1 || a.len() == b.len() {
        return Some(a.len());
    }
    None
}

#[unsafe(no_mangle)]
pub extern "C" fn elements_copy(from: &[u32], to: &mut [u32]) {
    if from.len() != to.len() {
        return;
    }
    segment::copy(from, to);
}

#[unsafe(no_mangle)]
pub extern "C" fn elements_cycle(from: &[u32], to: &mut [u32]) {
    if from.len() == 0 {
        return;
    }
    elements::copies::cycle(from, to)
}

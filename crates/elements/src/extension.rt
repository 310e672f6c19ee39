// The elements of two operands, of which one may have a single element that is repeated.
ghost use Rattle.std.specs.Prelude.{◌≡◌, ℕ, ◌<◌, length, get_or};
ghost use Rattle.manual.specs.Values as values;

// The number of results.
pub fn extent(a: &[u32], b: &[u32]) -> usize
    ensures { result ≡ values.extent a.now b.now }
{
    if a.len() == 1 { b.len() } else { a.len() }
}

// Element i of an operand: of a one-element operand always that one.
pub fn pick(a: &[u32], i: usize) -> u32
    requires { (length a.now ≡ 1 → ⊥) → i < length a.now }
    ensures { (n : ℕ) → i < n → result ≡ get_or (values.spread n a.now) i 0 }
{
    if a.len() == 1 { a[0] } else { a[i] }
}

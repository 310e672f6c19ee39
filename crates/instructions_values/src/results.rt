// Results that take the place of operands.
ghost use Rattle.std.specs.Prelude.{◌≡◌, true, ◌≤◌, length, Ok};
ghost use Rattle.segment.specs.Blocks.{shape_at};
ghost use Rattle.manual.specs.OrTrap.{gives};
ghost use Rattle.manual.specs.Values as values;
ghost use Rattle.effects.specs.Seen.{whole};
ghost use Rattle.instructions_values.specs.Parts.{Carries, ReplacesBy, scalar_of, made_of};

use descriptor::address::{CodeAddress, SegmentAddress};
use effects::Outcome;
use effects_code::storing::keep;
use effects_code::taking::{jump, replace_by_array, replace_by_word};
use operands::reading::lengths_of;
use trap::Trap;

// A scalar.
pub fn replace_by_scalar(seg: &mut [u32], n: u32, w: u32, next: CodeAddress) -> Outcome
    requires { 1 ≤ n }
    ensures { Carries seg.old (Ok result) seg.new (λ _. scalar_of next.0 n (gives w)) }
{
    replace_by_word(seg, n, w);
    jump(seg, next);
    Outcome::Finished
}

// A new array.
pub fn replace_by_new(
    seg: &mut [u32],
    n: u32,
    lengths: &[u32],
    ravel: &[u32],
    next: CodeAddress,
) -> Result<Outcome, Trap>
    requires { 1 ≤ n }
    ensures { Carries seg.old result seg.new (λ _. made_of next.0 n lengths.now (gives ravel.now)) }
{
    replace_by_array(seg, n, lengths, ravel)?;
    jump(seg, next);
    Ok(Outcome::Finished)
}

// A new array with the shape of the one in `block`.
pub fn replace_by_like(
    seg: &mut [u32],
    n: u32,
    block: SegmentAddress,
    ravel: &[u32],
    next: CodeAddress,
) -> Result<Outcome, Trap>
    requires { (1 ≤ n) × (whole seg.old block.0 ≡ true) }
    ensures { Carries seg.old result seg.new (λ s. made_of next.0 n (shape_at s block.0) (gives ravel.now)) }
{
    let mut lengths = [0u32; 16];
    let rank = keep(lengths_of(seg, block), &mut lengths);
    replace_by_new(seg, n, &lengths[..rank], ravel, next)
}

// A new vector.
pub fn replace_by_vector(
    seg: &mut [u32],
    n: u32,
    ravel: &[u32],
    next: CodeAddress,
) -> Result<Outcome, Trap>
    requires { (1 ≤ n) × (length ravel.now ≤ 16384) }
    ensures { ReplacesBy seg.old result seg.new next.0 n (λ _. gives (values.vector ravel.now)) }
{
    replace_by_new(seg, n, &[ravel.len() as u32], ravel, next)
}

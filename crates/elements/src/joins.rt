// The shape of a join: elements are counted where neither operand is above rank one, else rows of one width.
ghost use Rattle.std.specs.Prelude.{◌≡◌, ℕ, List, ◌∷◌, ◌≤◌, length};
ghost use Rattle.segment.specs.Blocks as layout;
ghost use Rattle.manual.specs.OrTrap.{gives, and_then};
ghost use Rattle.manual.specs.Values as values;
ghost use Rattle.elements.specs.Answers.{join_named};

use crate::Joined;
use trap::Trap;

pub fn joined(a: &[u32], b: &[u32]) -> Result<Joined, Trap>
    ensures { join_named result ≡ values.joined_shape a.now b.now }
{
    if a.len() <= 1 && b.len() <= 1 {
        let n = lengthened(count(a) as u64 + count(b) as u64)?;
        return Ok(Joined::Vector(n));
    }
    if !has_rows(a) || !has_rows(b) {
        return Err(Trap::RANK_ERROR);
    }
    let w = width(a);
    if w != width(b) {
        return Err(Trap::LENGTH_ERROR);
    }
    let n = lengthened(rows(a) as u64 + rows(b) as u64)?;
    Ok(Joined::Matrix(n, w))
}

// The first length of a join, which is below 2^16.
fn lengthened(n: u64) -> Result<u32, Trap>
    ensures { (lengths : List ℕ) → and_then (values.answered result) (λ k. gives (k ∷ lengths)) ≡ values.lengthened n lengths }
{
    if 0x1_0000 <= n {
        return Err(Trap::LENGTH_ERROR);
    }
    Ok(n as u32)
}

// How many elements a scalar or a vector has.
fn count(shape: &[u32]) -> u32
    requires { length shape.now ≤ 1 }
    ensures { result ≡ layout.product shape.now }
{
    if shape.is_empty() { 1 } else { shape[0] }
}

fn has_rows(shape: &[u32]) -> bool
    ensures { result ≡ values.has_rows shape.now }
{
    1 <= shape.len() && shape.len() <= 2
}

// A vector counts as one row.
fn rows(shape: &[u32]) -> u32
    ensures { result ≡ values.rows shape.now }
{
    if shape.len() == 2 { shape[0] } else { 1 }
}

fn width(shape: &[u32]) -> u32
    requires { 1 ≤ length shape.now }
    ensures { result ≡ values.width shape.now }
{
    shape[shape.len() - 1]
}

// The tests of document 01's table that the operations go by.
ghost use Rattle.std.specs.Prelude.{◌≡◌, cond, ◌&&◌, ◌+◌, leb, ltb, eqb, length, None};
ghost use Rattle.procedure.specs.Directory.{selected, function_of};
ghost use Rattle.procedure.specs.Refusal.{procedure_refusal};
ghost use Rattle.segment.specs.Blocks as layout;
ghost use Rattle.acceptance.specs.Refusal.{length_test, refusal};
ghost use Rattle.manual.specs.Program.{program};
ghost use Rattle.manual.specs.Values as values;
ghost use Rattle.operations.specs.Answers.{numbered, status_of};
ghost use Rattle.operations.specs.Load as meaning;
ghost use Rattle.operations.specs.Run.{run_refusal};

use acceptance::Test;
use elements::kinds::any_other;
use operations::Refusal;
use operator::lent::is_table;
use procedure::directory::find_in;
use procedure::header::Block;
use procedure::refusal;
use segment::state::blockptr;

// Tests 10 to 18: refused by the first that fails.
pub fn accept(seg: &[u32], regular: &[u8], alternate: &[u8]) -> Result<(), Refusal>
    ensures { status_of (numbered result) ≡ refusal seg.now regular.now alternate.now }
{
    acceptance::judge(seg, regular, alternate)?;
    Ok(())
}

// Tests 10, 11 and 12.
pub fn accept_lent(seg: &[u32], regular: &[u8], alternate: &[u8]) -> Result<(), Refusal>
    ensures { status_of (numbered result) ≡ cond (length_test seg.now) (procedure_refusal regular.now alternate.now) 10 }
{
    if seg.len() < 32 || 16384 < seg.len() {
        return Err(Refusal::Test(Test::Length));
    }
    match refusal::judge(regular, alternate) {
        Ok(()) => Ok(()),
        Err(refusal::Refusal::Length) => Err(Refusal::Test(Test::ProcedureLength)),
        Err(refusal::Refusal::Contents) => Err(Refusal::Test(Test::Procedures)),
    }
}

// The tests of a run: 10 to 12, then 26, then 13 to 18.
pub fn accept_run(
    seg: &[u32],
    regular: &[u8],
    alternate: &[u8],
    table: &[u8],
) -> Result<(), Refusal>
    ensures { status_of (numbered result) ≡ run_refusal seg.now (program regular.now alternate.now table.now) }
{
    // By a name of its own: an edit puts other tests here, and is to be refused for what they answer.
    let lent = accept_lent(seg, regular, alternate);
    lent?;
    if !is_table(table) {
        return Err(Refusal::Table);
    }
    acceptance::judge_data(seg, regular, alternate)?;
    Ok(())
}

// The function that test 20 looks at.
pub fn bottom_function(
    regular: &[u8],
    alternate: &[u8],
    selector: u32,
    function: u32,
) -> Option<Block>
    ensures { result ≡ cond (leb selector 1 && leb function 2047)
        (function_of (selected (eqb selector 1) regular.now alternate.now) function) None }
{
    if 1 < selector {
        return None;
    }
    if 2047 < function {
        return None;
    }
    find_in(selector == 1, regular, alternate, function as u16)
}

// Test 19.
pub fn parts_fit(seg: &[u32], globals: u32, storage: u32, locals: u32) -> bool
    ensures { result ≡ (leb globals 4088 && leb 6 storage && leb (8 + globals + storage + locals + 2) (length seg.now)) }
{
    if 4088 < globals {
        return false;
    }
    if storage < 6 {
        return false;
    }
    8 + globals as usize + storage as usize + locals as usize + 2 <= seg.len()
}

// Test 21.
pub fn is_global(seg: &[u32], global: u32) -> bool
    ensures { result ≡ meaning.is_global seg.now global }
{
    if global < 8 {
        return false;
    }
    global < blockptr(seg).number()
}

// Test 23.
pub fn is_value(lengths: &[u32], ravel: &[u32]) -> bool
    ensures { result ≡ meaning.is_value lengths.now ravel.now }
{
    lengths.len() <= 15
        && !any_long(lengths)
        && !any_other(ravel)
        && is_product(lengths, ravel.len())
}

fn any_long(lengths: &[u32]) -> bool
    ensures { result ≡ values.any (λ l. ltb 65535 l) lengths.now }
{
    lengths.iter().any(|l| 65535 < *l)
}

// Whether the product of the lengths is n: n is divided by each in turn, so that no number grows.
fn is_product(lengths: &[u32], n: usize) -> bool
    ensures { result ≡ eqb (layout.product lengths.now) n }
{
    if lengths.contains(&0) {
        return n == 0;
    }
    let mut rest = n;
    for l in lengths {
        let divisor = *l as usize;
        if rest % divisor != 0 {
            return false;
        }
        rest /= divisor;
    }
    rest == 1
}

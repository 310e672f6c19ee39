// Sheet: where the words of array storage went.
ghost use Rattle.std.specs.Prelude.{◌≡◌};
ghost use Rattle.operations.specs.Answers.{numbered};
ghost use Rattle.operations.specs.Sheet.{sheeted};
ghost use Rattle.audit.specs.Calls as call;
ghost use Rattle.audit.specs.Did.{Promised};

use operation_parts::tests::accept;
use operations::Refusal;
use storage_sheet::{Sheet, add_up};

pub fn sheet(seg: &[u32], regular: &[u8], alternate: &[u8]) -> Result<Sheet, Refusal>
    ensures value { numbered result ≡ sheeted seg.now regular.now alternate.now }
    ensures promised { Promised seg.now (call.sheet (call.procedures regular.now alternate.now))
        (call.sheet_answer (numbered result)) seg.now }
{
    accept(seg, regular, alternate)?;
    Ok(add_up(seg))
}

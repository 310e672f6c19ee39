// Tests 11 and 12: what refuses a procedure segment, told before anything is read through it.
ghost use Rattle.std.specs.Prelude.{◌≡◌};
ghost use Rattle.procedure.specs.Refusal.{segment_length_test, entries_test, result_has_local, procedure_refusal, refusal_number};
ghost use Rattle.procedure.specs.Faults.{header_fault, function_fault, contents_fault, fault_of};

use crate::bytes::word_at;
use crate::directory::{entries, length_of, start_of};
use crate::header::{Header, header_at};

// What is wrong with a function: where its block starts or ends, how long it is, or its header.
#[derive(Clone, Copy, PartialEq, Eq, Debug)]
pub enum FunctionFault {
    Start,
    End,
    Length,
    UnnamedBits,
    Arguments,
    ResultLocal,
    Variables,
}

// The first thing that is wrong with a segment; of a function, with its number.
#[derive(Clone, Copy, PartialEq, Eq, Debug)]
pub enum Fault {
    SegmentLength,
    Entries,
    Function(u16, FunctionFault),
}

// Which test refuses two segments.
#[derive(Clone, Copy, PartialEq, Eq, Debug)]
pub enum Refusal {
    Length,
    Contents,
}

// Both segments: their lengths, then their contents, the regular one first.
#[tactic(auto, using(crate::proofs::Faults::contents_tested), unfolding(crate::specs::Refusal::procedure_refusal))]
pub fn judge(regular: &[u8], alternate: &[u8]) -> Result<(), Refusal>
    ensures { refusal_number result ≡ procedure_refusal regular.now alternate.now }
{
    if !length_passes(regular) || !length_passes(alternate) {
        return Err(Refusal::Length);
    }
    if contents_fault(regular).is_err() || contents_fault(alternate).is_err() {
        return Err(Refusal::Contents);
    }
    Ok(())
}

// What is wrong with one segment.
#[tactic(auto, unfolding(crate::specs::Faults::fault_of))]
pub fn fault_of(p: &[u8]) -> Result<(), Fault>
    ensures { result ≡ fault_of p.now }
{
    if !length_passes(p) {
        return Err(Fault::SegmentLength);
    }
    contents_fault(p)
}

#[tactic(auto, unfolding(crate::specs::Refusal::segment_length_test))]
fn length_passes(p: &[u8]) -> bool
    ensures { result ≡ segment_length_test p.now }
{
    4 <= p.len() && p.len() <= 32768 && p.len() % 4 == 0
}

// The directory, then function after function.
#[tactic(auto, unfolding(crate::specs::Faults::contents_fault))]
fn contents_fault(p: &[u8]) -> Result<(), Fault>
    ensures { result ≡ contents_fault p.now }
{
    if !entries_pass(p) {
        return Err(Fault::Entries);
    }
    for k in 1..entries(p) {
        function_fault(p, k)?;
    }
    Ok(())
}

#[tactic(auto, unfolding(crate::specs::Refusal::entries_test))]
fn entries_pass(p: &[u8]) -> bool
    ensures { result ≡ entries_test p.now }
{
    let word = word_at(p, 0);
    let n = word % 0x1_0000;
    word / 0x1_0000 == 0 && 1 <= n && n <= 2048 && 4 * n as usize <= p.len()
}

// Function k: it lies in the segment after the directory.
#[tactic(auto, unfolding(crate::specs::Faults::function_fault))]
fn function_fault(p: &[u8], k: u16) -> Result<(), Fault>
    ensures { result ≡ function_fault p.now k }
{
    let start = start_of(p, k);
    let length = length_of(p, k);
    if start < entries(p) {
        return Err(Fault::Function(k, FunctionFault::Start));
    }
    if p.len() < 4 * (start as usize + length as usize) {
        return Err(Fault::Function(k, FunctionFault::End));
    }
    header_fault(k, header_at(p, start), word_at(p, 4 * start as u32), length)
}

// Function k's header, beside its word 0 and the length in the directory.
#[tactic(auto, unfolding(crate::specs::Faults::header_fault))]
fn header_fault(k: u16, h: Header, word0: u32, length: u16) -> Result<(), Fault>
    ensures { result ≡ header_fault k h word0 length }
{
    if length as u32 != 2 + h.ncode as u32 + (h.nlines as u32 + 1) / 2 {
        return Err(Fault::Function(k, FunctionFault::Length));
    }
    if word0 / 0x100_0000 % 0x20 != 0 {
        return Err(Fault::Function(k, FunctionFault::UnnamedBits));
    }
    if 15 < h.nargs {
        return Err(Fault::Function(k, FunctionFault::Arguments));
    }
    if !result_has_local(h.result, h.nlocals) {
        return Err(Fault::Function(k, FunctionFault::ResultLocal));
    }
    if 4096 < h.nargs as u32 + h.nlocals as u32 {
        return Err(Fault::Function(k, FunctionFault::Variables));
    }
    Ok(())
}

// RESULT needs a local to take the result from.
fn result_has_local(res: bool, nlocals: u16) -> bool
    ensures { result ≡ result_has_local res nlocals }
{
    !res || 1 <= nlocals
}

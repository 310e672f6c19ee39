// The operations for callers from C and Rust: include/crms.h says what each number means.
#![tactic(auto)]

ghost use Rattle.std.specs.Prelude.{◌≡◌, ◌<◌, ◌%◌, ◌^◌, length, Ok};
ghost use Rattle.segment.specs.Parts.{shape_part, elements_part};
ghost use Rattle.fresh_segment.specs.LayOut as layout;
ghost use Rattle.manual.specs.Program.{program, under_manual};
ghost use Rattle.operations.specs.Answers.{numbered, status_of, stopped};
ghost use Rattle.operations.specs.Load as loading;
ghost use Rattle.operations.specs.Look.{looked};
ghost use Rattle.operations.specs.Replay.{replayed};
ghost use Rattle.operations.specs.Run.{ran};
ghost use Rattle.operations.specs.Sheet.{sheeted};
ghost use Rattle.operations.specs.declared.Looked.TheVariants as seen;
ghost use Rattle.crms_export.specs.Numbers.{run_number, replay_number, look_number, sheet_counts};

use descriptor::address::SegmentAddress;
use effects::Ran;
use engine::lay_out::lay_out;
use engine::load::load;
use engine::look::{elements, lengths, look};
use engine::run::{run, run_with};
use engine::sheet::sheet;
use operations::{Halt, Looked, Refusal};
use operator::lent::manual_table;
use replay::replay_into;
use segment::put_all;

#[unsafe(no_mangle)]
pub extern "C" fn crms_lay_out(
    seg: &mut [u32],
    regular: &[u8],
    alternate: &[u8],
    segment: u32,
    function: u32,
    globals: u32,
    array_words: u32,
) -> u32
    ensures value { result ≡ layout.lay_out_refusal seg.old regular.now alternate.now
        (layout.layout segment function globals array_words) }
    ensures seg_after { seg.new ≡ layout.laid_out seg.old regular.now alternate.now
        (layout.layout segment function globals array_words) }
{
    status(lay_out(
        seg,
        regular,
        alternate,
        segment,
        function,
        globals,
        array_words,
    ))
}

#[unsafe(no_mangle)]
pub extern "C" fn crms_run(seg: &mut [u32], regular: &[u8], alternate: &[u8], budget: u32) -> u64
    ensures value { result ≡ run_number (ran seg.old (under_manual regular.now alternate.now) budget).answer }
    ensures seg_after { seg.new ≡ (ran seg.old (under_manual regular.now alternate.now) budget).words }
{
    run_number(run(seg, regular, alternate, budget))
}

// A run under a table of operators that is lent.
#[unsafe(no_mangle)]
pub extern "C" fn crms_run_with(
    seg: &mut [u32],
    regular: &[u8],
    alternate: &[u8],
    table: &[u8],
    budget: u32,
) -> u64
    ensures value { result ≡ run_number (ran seg.old (program regular.now alternate.now table.now) budget).answer }
    ensures seg_after { seg.new ≡ (ran seg.old (program regular.now alternate.now table.now) budget).words }
{
    run_number(run_with(seg, regular, alternate, table, budget))
}

// The tally has eight counts, so C is told no length of it.
#[unsafe(no_mangle)]
pub extern "C" fn crms_replay(
    seg: &mut [u32],
    regular: &[u8],
    alternate: &[u8],
    file: &[u8],
    tally: &mut [u32; 8],
) -> u64
    ensures value { result ≡ replay_number (replayed seg.old (under_manual regular.now alternate.now) file.now).answer }
    ensures seg_after { seg.new ≡ (replayed seg.old (under_manual regular.now alternate.now) file.now).words }
    ensures tally_after { tally.new ≡ (replayed seg.old (under_manual regular.now alternate.now) file.now).counts }
{
    let table = manual_table();
    replay_number(replay_into(seg, regular, alternate, &table, file, tally))
}

// A replay whose runs are under a table of operators that is lent.
#[unsafe(no_mangle)]
pub extern "C" fn crms_replay_with(
    seg: &mut [u32],
    regular: &[u8],
    alternate: &[u8],
    table: &[u8],
    file: &[u8],
    tally: &mut [u32; 8],
) -> u64
    ensures value { result ≡ replay_number (replayed seg.old (program regular.now alternate.now table.now) file.now).answer }
    ensures seg_after { seg.new ≡ (replayed seg.old (program regular.now alternate.now table.now) file.now).words }
    ensures tally_after { tally.new ≡ (replayed seg.old (program regular.now alternate.now table.now) file.now).counts }
{
    replay_number(replay_into(seg, regular, alternate, table, file, tally))
}

#[unsafe(no_mangle)]
pub extern "C" fn crms_load(
    seg: &mut [u32],
    regular: &[u8],
    alternate: &[u8],
    global: u32,
    shape: &[u32],
    ravel: &[u32],
) -> u32
    ensures value { result ≡ loading.load_refusal seg.old regular.now alternate.now
        global shape.now ravel.now }
    ensures seg_after { seg.new ≡ loading.loaded seg.old regular.now alternate.now
        global shape.now ravel.now }
{
    status(load(seg, regular, alternate, global, shape, ravel))
}

#[unsafe(no_mangle)]
pub extern "C" fn crms_look(seg: &[u32], regular: &[u8], alternate: &[u8], global: u32) -> u64
    ensures { result ≡ look_number seg.now global (looked seg.now regular.now alternate.now global) }
{
    match look(seg, regular, alternate, global) {
        Ok(Looked::Scalar(_)) => global as u64 * 0x4000 + 1,
        Ok(Looked::Array(block)) => array_number(seg, block),
        Err(why) => why.number() as u64 * 0x1_0000_0000,
    }
}

// The five counts are written where the segment is accepted.
#[unsafe(no_mangle)]
pub extern "C" fn crms_sheet(
    seg: &[u32],
    regular: &[u8],
    alternate: &[u8],
    counts: &mut [u32; 5],
) -> u32
    ensures value { result ≡ status_of (sheeted seg.now regular.now alternate.now) }
    ensures counts_after { counts.new
        ≡ sheet_counts (sheeted seg.now regular.now alternate.now) counts.old }
{
    match sheet(seg, regular, alternate) {
        Ok(sums) => {
            let five = [sums.arrays, sums.slop, sums.free, sums.end, sums.total];
            put_all(counts, 0, &five);
            0
        }
        Err(refusal) => refusal.number() as u32,
    }
}

fn status(answer: Result<(), Refusal>) -> u32
    ensures { result ≡ status_of (numbered answer) }
{
    match answer {
        Ok(()) => 0,
        Err(refusal) => refusal.number() as u32,
    }
}

fn run_number(answer: Result<Ran, Refusal>) -> u64
    ensures { result ≡ run_number (numbered answer) }
{
    match answer {
        Ok(Ran::Done(steps)) => 2 * 0x1_0000_0000 + steps as u64,
        Ok(Ran::Trapped(steps)) => 3 * 0x1_0000_0000 + steps as u64,
        Err(refusal) => refusal.number() as u64 * 0x1_0000_0000,
    }
}

fn replay_number(answer: Result<(), Halt>) -> u64
    ensures { result ≡ replay_number (stopped answer) }
{
    match answer {
        Ok(()) => 0,
        Err(halt) => halt.number() as u64 * 0x1_0000_0000 + low_half(halt.place()),
    }
}

fn low_half(place: usize) -> u64
    ensures { result ≡ place % 2 ^ 32 }
{
    (place % 0x1_0000_0000) as u64
}

fn array_number(seg: &[u32], block: SegmentAddress) -> u64
    ensures { result ≡ look_number seg.now 0 (Ok (seen.Array block)) }
{
    let lengths = rank(seg, block);
    let first = block.number() as u64 + 2 + lengths;
    lengths * 0x1000_0000 + first * 0x4000 + count(seg, block)
}

fn rank(seg: &[u32], block: SegmentAddress) -> u64
    ensures value { result ≡ length (shape_part seg.now block.0) }
    ensures upper_bound { result < 2 ^ 4 }
{
    lengths(seg, block).len() as u64
}

fn count(seg: &[u32], block: SegmentAddress) -> u64
    ensures value { result ≡ length (elements_part seg.now block.0) }
    ensures upper_bound { result < 2 ^ 16 }
{
    elements(seg, block).len() as u64
}

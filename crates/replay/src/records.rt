// The records of a file of imports, one after the other: the loads and runs that they are.
ghost use Rattle.std.specs.Prelude.{◌≡◌, length};
ghost use Rattle.imports.specs.Records.{records_of};
ghost use Rattle.manual.specs.Program.{program};
ghost use Rattle.operations.specs.Answers.{numbered, status_of, stopped};
ghost use Rattle.operations.specs.Load.{load_refusal, loaded};
ghost use Rattle.operations.specs.Run.{ran};
ghost use Rattle.operations.specs.Replay as meaning;
ghost use Rattle.replay.specs.Tested.{HaltsAt, Tested};

use effects::Ran;
use engine::load::{load, load_accepted};
use engine::run::run_tallied;
use imports::parse::{Record, record_at};
use operations::{Halt, Refusal};

pub fn replay_records(
    seg: &mut [u32],
    regular: &[u8],
    alternate: &[u8],
    table: &[u8],
    file: &[u8],
    counts: &mut [u32],
) -> Result<(), Halt>
    ensures { meaning.replay (stopped result) seg.new counts.new
        ≡ meaning.replay_from (program regular.now alternate.now table.now) (records_of file.now) seg.old counts.old }
{
    let mut lengths = [0u32; 15];
    let mut ravel = [0u32; 16384];
    one_by_one(
        seg,
        regular,
        alternate,
        table,
        file,
        counts,
        &mut lengths,
        &mut ravel,
    )
}

// A load's lengths and elements are read into the last two slices. A load leaves what passes tests 10 to 18, so that a load after it
// need not make them again.
fn one_by_one(
    seg: &mut [u32],
    regular: &[u8],
    alternate: &[u8],
    table: &[u8],
    file: &[u8],
    counts: &mut [u32],
    lengths: &mut [u32],
    ravel: &mut [u32],
) -> Result<(), Halt>
    requires { (length lengths.old ≡ 15) × (length ravel.old ≡ 16384) }
    ensures { meaning.replay (stopped result) seg.new counts.new
        ≡ meaning.replay_from (program regular.now alternate.now table.now) (records_of file.now) seg.old counts.old }
{
    let mut tested = false;
    let mut place = 0;
    while place < file.len() {
        let Some(record) = record_at(file, place, lengths, ravel) else {
            return Err(Halt::Malformed(place));
        };
        match record {
            Record::Run { budget, next } => {
                run_record(seg, regular, alternate, table, budget, counts, place)?;
                tested = false;
                place = next;
            }
            Record::Load {
                global,
                rank,
                count,
                next,
            } => {
                load_record(
                    seg,
                    regular,
                    alternate,
                    tested,
                    global,
                    &lengths[..rank],
                    &ravel[..count],
                    place,
                )?;
                tested = true;
                place = next;
            }
        }
    }
    Ok(())
}

// The run of a record at this place.
fn run_record(
    seg: &mut [u32],
    regular: &[u8],
    alternate: &[u8],
    table: &[u8],
    budget: u32,
    counts: &mut [u32],
    place: usize,
) -> Result<(), Halt>
    ensures value { HaltsAt place (meaning.run_halt (ran seg.old (program regular.now alternate.now table.now) budget).answer) result }
    ensures seg_after { seg.new ≡ (ran seg.old (program regular.now alternate.now table.now) budget).words }
    ensures counts_after { counts.new
        ≡ meaning.tallied seg.old (program regular.now alternate.now table.now) budget counts.old }
{
    match run_tallied(seg, regular, alternate, table, budget, counts) {
        Ok(Ran::Done(_)) => Ok(()),
        Ok(Ran::Trapped(_)) => Err(Halt::Trapped(place)),
        Err(refusal) => Err(Halt::Refused(refusal, place)),
    }
}

// The load of a record at this place. Are tests 10 to 18 known to pass?
fn load_record(
    seg: &mut [u32],
    regular: &[u8],
    alternate: &[u8],
    tested: bool,
    global: u32,
    lengths: &[u32],
    ravel: &[u32],
    place: usize,
) -> Result<(), Halt>
    requires { Tested tested seg.old regular.now alternate.now }
    ensures value { HaltsAt place (load_refusal seg.old regular.now alternate.now
        global lengths.now ravel.now) result }
    ensures seg_after { seg.new ≡ loaded seg.old regular.now alternate.now
        global lengths.now ravel.now }
{
    if tested {
        return refused_at(place, load_accepted(seg, global, lengths, ravel));
    }
    refused_at(place, load(seg, regular, alternate, global, lengths, ravel))
}

fn refused_at(place: usize, answer: Result<(), Refusal>) -> Result<(), Halt>
    ensures { HaltsAt place (status_of (numbered answer)) result }
{
    answer.map_err(|refusal| Halt::Refused(refusal, place))
}

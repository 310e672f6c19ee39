// Replays of files of imports on a lent data segment, both procedure segments and a table of operators. Beside the segment a tally is
// lent. A replay is the loads and runs that its records are; it carries two contracts, as the operations of `engine` do.
#![tactic(auto)]

ghost use Rattle.std.specs.Prelude.{◌≡◌};
ghost use Rattle.std.proofs.lemmas.List.Edits.{sets};
ghost use Rattle.tally.specs.Counts.{added, counts_of, none_counted, tally_of};
ghost use Rattle.manual.specs.Program.{program};
ghost use Rattle.operations.specs.Answers.{stopped};
ghost use Rattle.operations.specs.Replay as meaning;
ghost use Rattle.audit.specs.Replays.{PromisedReplay};

use operations::Halt;
use records::replay_records;
use tally::Tally;

mod records;

// What a whole file comes to.
#[derive(Drop)]
pub struct Week {
    pub answer: Result<(), Halt>,
    pub tally: Tally,
}

// A replay whose counts go into a lent tally.
pub fn replay(
    seg: &mut [u32],
    regular: &[u8],
    alternate: &[u8],
    table: &[u8],
    file: &[u8],
    tally: &mut Tally,
) -> Result<(), Halt>
    ensures tally_after { meaning.replay (stopped result) seg.new (counts_of tally.new)
        ≡ meaning.replayed seg.old (program regular.now alternate.now table.now) file.now }
    ensures promised_replay { PromisedReplay seg.old (program regular.now alternate.now table.now) file.now
        (stopped result) seg.new (counts_of tally.new) }
{
    let week = replay_all(seg, regular, alternate, table, file);
    *tally = Tally::zero();
    tally.add(week.tally);
    week.answer
}

// The same for callers that lend words: the first eight are the counts from now on.
pub fn replay_into(
    seg: &mut [u32],
    regular: &[u8],
    alternate: &[u8],
    table: &[u8],
    file: &[u8],
    counts: &mut [u32],
) -> Result<(), Halt>
    ensures value { stopped result ≡ (meaning.replayed seg.old (program regular.now alternate.now table.now) file.now).answer }
    ensures seg_after { seg.new
        ≡ (meaning.replayed seg.old (program regular.now alternate.now table.now) file.now).words }
    ensures counts_after { counts.new ≡ sets counts.old 0
        (meaning.replayed seg.old (program regular.now alternate.now table.now) file.now).counts }
{
    let mut tally = Tally::zero();
    let answer = replay(seg, regular, alternate, table, file, &mut tally);
    tally.write(counts);
    answer
}

fn replay_all(seg: &mut [u32], regular: &[u8], alternate: &[u8], table: &[u8], file: &[u8]) -> Week
    ensures { meaning.replay (stopped result.answer) seg.new (counts_of (added (tally_of none_counted) result.tally))
        ≡ meaning.replayed seg.old (program regular.now alternate.now table.now) file.now }
{
    let mut counts = [0u32; 8];
    let answer = replay_records(seg, regular, alternate, table, file, &mut counts);
    Week {
        answer,
        tally: Tally::of(&counts),
    }
}

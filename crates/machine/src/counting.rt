// What a finished instruction adds to the counts that are lent.
ghost use Rattle.std.specs.Prelude.{◌≡◌, ◌<◌, length};
ghost use Rattle.procedure.specs.Bytes.{byte_at};
ghost use Rattle.tally.specs.Counts.{counted};

use descriptor::address::CodeAddress;
use tally::counting::count;

// The instruction at that place has finished. A run that is lent no counts pays one test for it.
pub fn count_step(counts: &mut [u32], code: &[u8], place: CodeAddress)
    requires { place.0 < length code.now }
    ensures { counts.new ≡ counted (byte_at code.now place.0) counts.old }
{
    if counts.is_empty() {
        return;
    }
    count(counts, code[place.number() as usize]);
}

// The variable that an instruction names, in the form of the three loads.
ghost use Rattle.std.specs.Prelude.{◌≡◌, ◌+◌, ◌*◌, ◌^◌};
ghost use Rattle.instruction.specs.Variables.{address_in, address_at, short_local, long_local, long_global};

use crate::Address;
use crate::cursor::Cursor;
use crate::family::{Family, family_of};
use descriptor::address::SegmentAddress;
use trap::Trap;

// A MEMREF's address.
#[tactic(auto, unfolding(crate::specs::Variables::address_at))]
pub fn read_address(code: &[u8], c: Cursor) -> Result<(Address, Cursor), Trap>
    ensures { result ≡ address_at code.now c }
{
    let (first, next) = c.byte(code).ok_or(Trap::PROCEDURE_ADDRESS)?;
    address_in(code, next, first, family_of(first))
}

// The address whose first byte, of that family, stands before the cursor.
#[tactic(auto, unfolding(crate::specs::Variables::address_in))]
pub fn address_in(
    code: &[u8],
    c: Cursor,
    first: u8,
    family: Family,
) -> Result<(Address, Cursor), Trap>
    ensures { result ≡ address_in code.now c first family }
{
    match family {
        Family::ShortLocal => Ok((Address::Local(64 - first as u32 % 64), c)),
        Family::LongLocal => {
            let (second, next) = c.byte(code).ok_or(Trap::PROCEDURE_ADDRESS)?;
            Ok((long_local(first, second), next))
        }
        Family::LongGlobal => {
            let (second, next) = c.byte(code).ok_or(Trap::PROCEDURE_ADDRESS)?;
            Ok((long_global(first, second), next))
        }
        _ => Err(Trap::MALFORMED_MEMREF),
    }
}

fn long_local(first: u8, second: u8) -> Address
    ensures { result ≡ long_local (first * 2 ^ 8 + second) }
{
    Address::Local(4096 - (first as u32 * 0x100 + second as u32) % 0x1000)
}

fn long_global(first: u8, second: u8) -> Address
    ensures { result ≡ long_global (first * 2 ^ 8 + second) }
{
    Address::Global(SegmentAddress::of((first as u32 * 0x100 + second as u32) % 0x1000))
}

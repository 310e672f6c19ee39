// The bytes of a record.
ghost use Rattle.std.specs.Prelude.{◌≡◌, ◌+◌, ◌*◌, ◌≤◌, length, take};
ghost use Rattle.std.proofs.lemmas.List.Edits.{sets};
ghost use Rattle.imports.specs.Records as file;
ghost use Rattle.imports.specs.Encoding.{encode_numbers, encode_record};

use imports::write::write_number;

pub fn encode_load(global: u32, lengths: &[u32], ravel: &[u32], out: &mut [u8]) -> usize
    requires { (length lengths.now ≤ 15) × (4 * (3 + length lengths.now + length ravel.now) ≤ length out.old) }
    ensures out_after { take result out.new ≡ encode_record (file.load global lengths.now ravel.now) }
    ensures upper_bound { result ≤ length out.old }
{
    let head = [0, global, lengths.len() as u32];
    let a = write_numbers(&head, out, 0);
    let b = write_numbers(lengths, out, a);
    write_numbers(ravel, out, b)
}

pub fn encode_run(budget: u32, out: &mut [u8]) -> usize
    requires { 8 ≤ length out.old }
    ensures out_after { take result out.new ≡ encode_record (file.run budget) }
    ensures upper_bound { result ≤ length out.old }
{
    let numbers = [1, budget];
    write_numbers(&numbers, out, 0)
}

// Numbers one after the other from a place on; the place after them.
fn write_numbers(numbers: &[u32], out: &mut [u8], at: usize) -> usize
    requires { at + 4 * length numbers.now ≤ length out.old }
    ensures out_after { out.new ≡ sets out.old at (encode_numbers numbers.now) }
    ensures value { (result ≡ at + length (encode_numbers numbers.now)) × (result ≤ at + 4 * length numbers.now) }
{
    let mut to = at;
    for &n in numbers {
        to = write_number(n, out, to);
    }
    to
}

// The hexadecimal numbers of a line.
ghost use Rattle.std.specs.Prelude.{◌≤◌, length};

use case_lines::number;

// Puts the numbers of a line, each with a blank before it, at the start of `numbers`, and answers how many there are.
pub fn numbers_of(line: &[u8], numbers: &mut [u32]) -> usize
    ensures { result ≤ length numbers.old }
{
    let mut count = 0;
    for digits in line.split(|b| *b == b' ').skip(1) {
        if numbers.len() <= count {
            return count;
        }
        numbers[count] = number(digits);
        count += 1;
    }
    count
}

// The words of integer results, without branches.
ghost use Rattle.std.specs.Prelude.{◌≡◌, ◌*◌, ◌/◌, ◌%◌, ◌^◌, ◌<◌, eqb};
ghost use Rattle.descriptor.specs.Fields.{magnitude};
ghost use Rattle.scalar.specs.Operators as S;
ghost use Rattle.elements.specs.Parts.{Plain, Offset, Back};

// Bits 30-23 are clear.
pub fn plain(w: u32) -> bool
    ensures { result ≡ eqb (w / 2 ^ 23 % 2 ^ 8) 0 }
{
    w / 0x80_0000 % 0x100 == 0
}

// The word of the sum of two integers, and of the difference, if all three words have bits 30-23 clear.
pub fn sum_word(x: u32, y: u32) -> u32
    ensures { Plain x → Plain y → Plain result → S.sum x y ≡ Ok result }
{
    back(offset(x) + offset(y))
}

pub fn difference_word(x: u32, y: u32) -> u32
    ensures { Plain x → Plain y → Plain result → S.difference x y ≡ Ok result }
{
    back(offset(x) + (0x200_0000 - offset(y)))
}

// 2^24 plus the value of an integer.
fn offset(x: u32) -> u32
    ensures { Offset (x / 2 ^ 31) (x % 2 ^ 23) result }
{
    let m = x % 0x80_0000;
    if x < 0x8000_0000 {
        0x100_0000 + m
    } else {
        0x100_0000 - m
    }
}

// The word of an integer, from 2^25 plus its value.
fn back(t: u32) -> u32
    requires { t < 2 ^ 26 }
    ensures { Back t result }
{
    if t < 0x200_0000 {
        0x8000_0000 + (0x200_0000 - t)
    } else {
        t - 0x200_0000
    }
}

// The word of the product of two integers, if the product of their magnitudes is below 2^23.
pub fn product_word(x: u32, y: u32) -> u32
    ensures { Plain x → Plain y → magnitude x * magnitude y < 2 ^ 23 → S.product x y ≡ Ok result }
{
    let m = (product_size(x, y) % 0x80_0000) as u32;
    if m == 0 {
        0
    } else {
        (x / 0x8000_0000 + y / 0x8000_0000) % 2 * 0x8000_0000 + m
    }
}

// The product of two magnitudes.
pub fn product_size(x: u32, y: u32) -> u64
    ensures { result ≡ magnitude x * magnitude y }
{
    (x % 0x80_0000) as u64 * (y % 0x80_0000) as u64
}

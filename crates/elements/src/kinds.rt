// Tests of every word of a slice.
ghost use Rattle.std.specs.Prelude.{◌≡◌, not};
ghost use Rattle.descriptor.specs.Fields.{is_character};
ghost use Rattle.descriptor.specs.Kinds.{is_scalar};
ghost use Rattle.scalar.specs.Reading.{whole_of};
ghost use Rattle.manual.specs.Values as values;

use descriptor::Descriptor;
use scalar::{Whole, reading};

pub fn any_character(words: &[u32]) -> bool
    ensures { result ≡ values.any is_character words.now }
{
    words.iter().any(|w| reading::is_character(*w))
}

// Is there a number that is not whole?
pub fn any_fraction(words: &[u32]) -> bool
    ensures { result ≡ values.any (λ w. values.is_fraction (whole_of w)) words.now }
{
    words
        .iter()
        .any(|w| matches!(reading::whole(*w), Whole::Fraction))
}

// Is there a word that is no scalar?
pub fn any_other(words: &[u32]) -> bool
    ensures { result ≡ values.any (λ w. not (is_scalar w)) words.now }
{
    words.iter().any(|w| !Descriptor::of(*w).is_scalar())
}

// Counts of finished instructions by family.
#![tactic(auto)]

ghost use Rattle.std.specs.Prelude.{◌≡◌};
ghost use Rattle.std.proofs.lemmas.List.Edits.{sets};
ghost use Rattle.tally.specs.Counts.{added, counts_of, none_counted, tally_of};

use segment::{put_all, word};

pub mod counting;

// One count for each family of first bytes, in document 01's order.
#[derive(Clone, Copy, Default)]
pub struct Tally {
    pub short_local: u32,
    pub short_const: u32,
    pub gen_scalar: u32,
    pub mem_ref: u32,
    pub etc: u32,
    pub long_local: u32,
    pub long_global: u32,
    pub index: u32,
}

impl Tally {
    pub fn zero() -> Tally
        ensures { result ≡ tally_of none_counted }
    {
        Tally::default()
    }

    // The tally of lent counts, 0 for each that is not lent.
    pub fn of(counts: &[u32]) -> Tally
        ensures { result ≡ tally_of counts.now }
    {
        Tally {
            short_local: word(counts, 0),
            short_const: word(counts, 1),
            gen_scalar: word(counts, 2),
            mem_ref: word(counts, 3),
            etc: word(counts, 4),
            long_local: word(counts, 5),
            long_global: word(counts, 6),
            index: word(counts, 7),
        }
    }

    // Both counts of each family, up to the limit.
    pub fn plus(self, more: Tally) -> Tally
        ensures { result ≡ added self more }
    {
        Tally {
            short_local: self.short_local.saturating_add(more.short_local),
            short_const: self.short_const.saturating_add(more.short_const),
            gen_scalar: self.gen_scalar.saturating_add(more.gen_scalar),
            mem_ref: self.mem_ref.saturating_add(more.mem_ref),
            etc: self.etc.saturating_add(more.etc),
            long_local: self.long_local.saturating_add(more.long_local),
            long_global: self.long_global.saturating_add(more.long_global),
            index: self.index.saturating_add(more.index),
        }
    }

    pub fn add(&mut self, more: Tally)
        ensures { self.new ≡ added self.old more }
    {
        *self = self.plus(more);
    }

    // The eight counts, in order, as far as there is room for them.
    pub fn write(self, out: &mut [u32])
        ensures { out.new ≡ sets out.old 0 (counts_of self) }
    {
        let counts = [
            self.short_local,
            self.short_const,
            self.gen_scalar,
            self.mem_ref,
            self.etc,
            self.long_local,
            self.long_global,
            self.index,
        ];
        put_all(out, 0, &counts);
    }
}

// What a run is lent beside its data segment.
ghost use Rattle.std.specs.Prelude.{◌≡◌};
ghost use Rattle.procedure.specs.Directory.{selected};

use procedure::directory::selected;

// Both procedure segments, and a table with an operator for each suboperation.
#[derive(Clone, Copy)]
pub struct Program<'a> {
    pub regular: &'a [u8],
    pub alternate: &'a [u8],
    pub table: &'a [u8; 16],
}

impl<'a> Program<'a> {
    // The segment that P names.
    pub fn segment(&self, selector: bool) -> &'a [u8]
        ensures { result.now ≡ selected selector self.now.regular.now self.now.alternate.now }
    {
        selected(selector, self.regular, self.alternate)
    }
}

// The judgement of a data segment as the table's number, for callers from Rust and C; 0 is accepted.
ghost use Rattle.std.specs.Prelude.{◌≡◌};
ghost use Rattle.acceptance.specs.Refusal.{refusal};

#[unsafe(no_mangle)]
pub extern "C" fn acceptance_judge(seg: &[u32], regular: &[u8], alternate: &[u8]) -> u8
    ensures { result ≡ refusal seg.now regular.now alternate.now }
{
    match acceptance::judge(seg, regular, alternate) {
        Ok(()) => 0,
        Err(test) => test.number(),
    }
}

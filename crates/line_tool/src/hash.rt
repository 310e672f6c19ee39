// A number that tells data segments apart.
ghost use Rattle.std.specs.Prelude.{◌≡◌};
ghost use Rattle.line_tool.specs.Hash as meaning;

pub fn hash_of(words: &[u32]) -> u32
    ensures { result ≡ meaning.hash_from 0 words.now }
{
    let mut h = 0;
    for &w in words {
        h = hash_step(h, w);
    }
    h
}

fn hash_step(h: u32, w: u32) -> u32
    ensures { result ≡ meaning.hash_step h w }
{
    ((31 * h as u64 + w as u64) % 4_294_967_291) as u32
}

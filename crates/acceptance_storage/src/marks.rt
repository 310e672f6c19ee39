// Tables of marks: how often each address was met.
ghost use Rattle.std.specs.Prelude.{◌≡◌, ◌+◌, ◌-◌, ◌<◌, get_or, set};

// The mark at an address, 0 past the end.
pub fn mark_at(table: &[u16], a: usize) -> u16
    ensures { result ≡ get_or table.now a 0 }
{
    table.get(a).copied().unwrap_or(0)
}

// One more, and one less; nothing past the end.
pub fn raise(table: &mut [u16], a: usize)
    requires { get_or table.old a 0 < 65535 }
    ensures { table.new ≡ set table.old a (get_or table.old a 0 + 1) }
{
    if a < table.len() {
        table[a] += 1;
    }
}

pub fn lower(table: &mut [u16], a: usize)
    requires { 0 < get_or table.old a 0 }
    ensures { table.new ≡ set table.old a (get_or table.old a 0 - 1) }
{
    if a < table.len() {
        table[a] -= 1;
    }
}

// A table of operators that is lent in place of the manual's: one for each suboperation in order, by its place in the manual's table.
ghost use Rattle.std.specs.Prelude.{◌≡◌, length};
ghost use Rattle.operator.specs.Lent as meaning;

use super::{Operator, number_of, operator_of};

// Test 26: sixteen places, each of them once.
pub fn is_table(table: &[u8]) -> bool
    ensures { result ≡ meaning.table_test table.now }
{
    if table.len() != 16 {
        return false;
    }
    let mut seen = [false; 16];
    for &place in table {
        if 15 < place {
            return false;
        }
        if seen[place as usize] {
            return false;
        }
        seen[place as usize] = true;
    }
    true
}

// The operator that a suboperation number means under a table.
#[tactic(auto, unfolding(crate::specs::Lent::operator_under))]
pub fn operator_under(table: &[u8; 16], number: u8) -> Option<Operator>
    ensures { result ≡ meaning.operator_under table.now number }
{
    let place = table.get(number as usize)?;
    operator_of(*place)
}

// The operator that a table names for the suboperation which is `op` in the manual.
#[tactic(auto, unfolding(crate::specs::Lent::named))]
pub fn named(table: &[u8; 16], op: Operator) -> Operator
    ensures { result ≡ meaning.named table.now op }
{
    operator_under(table, number_of(op)).unwrap_or(op)
}

// The manual's own table.
pub fn manual_table() -> [u8; 16]
    ensures { result ≡ meaning.manual_table }
{
    [0, 1, 2, 3, 4, 5, 6, 7, 8, 9, 10, 11, 12, 13, 14, 15]
}

// A lent table of sixteen bytes, as an array.
pub fn sixteen(table: &[u8]) -> [u8; 16]
    requires { length table.now ≡ 16 }
    ensures { result ≡ table.now }
{
    let mut places = [0; 16];
    places.copy_from_slice(table);
    places
}

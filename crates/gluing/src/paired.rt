//! Whether each side is named by a glue line.

ghost use Rattle.std.specs.Prelude.{◌≡◌, ◌↔◌, length, IsTrue};
ghost use Rattle.gluing.specs.Tables.{rows_of, row_at, IsRowFull, IsFirstWithout};

/// Whether each entry of a row is filled.
fn is_row_full(row: &[Option<(u32, u32)>]) -> bool
    ensures { IsTrue result ↔ IsRowFull row.now }
{
    for e in 0..row.len() {
        if row[e].is_none() {
            return false;
        }
    }
    true
}

/// The first polygon with a side that has no twin.
pub fn first_unpaired(table: &[Vec<Option<(u32, u32)>>]) -> Option<usize>
    ensures { IsFirstWithout (λ p. IsRowFull (row_at (rows_of table.now) p)) (length table.now) result }
{
    for p in 0..table.len() {
        if !is_row_full(table[p].as_slice()) {
            return Some(p);
        }
    }
    None
}

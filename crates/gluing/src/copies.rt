//! Copies of a file's polygons, and the table before any glue line.

ghost use Rattle.std.specs.Prelude.{◌≡◌, [], None, length, replicate, IfOk};
ghost use Rattle.gluing.specs.Parts.{sides_of};
ghost use Rattle.gluing.specs.Tables.{rows_of, HasShape, IsTable};

use std::alloc::{AllocError, Global};
use surface_text::Polygon;

/// A row with no entry filled, as long as the polygon.
fn empty_row(alloc: Global, polygon: &Polygon) -> Result<Vec<Option<(u32, u32)>>, AllocError>
    ensures { IfOk result (λ row. row.items ≡ replicate (length polygon.now.sides.items) None) }
{
    vec![in alloc; None; polygon.sides.len()]
}

/// The table before any glue line.
pub fn empty_table(
    alloc: Global,
    polygons: &[Polygon],
) -> Result<Vec<Vec<Option<(u32, u32)>>>, AllocError>
    ensures { IfOk result (λ table. IsTable (sides_of polygons.now) [] (rows_of table.items)) }
{
    let mut table = Vec::new(alloc);
    for polygon in polygons {
        table.push(empty_row(alloc, polygon)?)?;
    }
    Ok(table)
}

/// Copies of the polygons.
pub fn copy_polygons(alloc: Global, polygons: &[Polygon]) -> Result<Vec<Polygon>, AllocError>
    ensures { IfOk result (λ copies. sides_of copies.items ≡ sides_of polygons.now) }
{
    let mut copies = Vec::new(alloc);
    for polygon in polygons {
        let sides = Vec::from_slice(alloc, polygon.sides.as_slice())?;
        copies.push(Polygon { sides })?;
    }
    Ok(copies)
}

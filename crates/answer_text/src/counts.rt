//! The text of `check`: the counts of a triangulation.

ghost use Rattle.std.specs.Prelude.{◌≡◌, ◌++◌, IfOk, OnOk};
ghost use Rattle.plane.specs.Spelling.{natural_text};
ghost use Rattle.answer_text.specs.CheckTexts.{counts_text, edge_count, numbers_text};

use plane::put_natural;
use std::alloc::{AllocError, Global};
use tri_core::Tri;

/// The counts of a triangulation whose vertices have these turns and whose surface has this genus, as `check` prints them:
/// triangles, edges, vertices, genus and turns, a line each.
pub fn check_text(
    alloc: Global,
    tri: &Tri,
    turns: &[u32],
    genus: u32,
) -> Result<Vec<u8>, AllocError>
    ensures { IfOk result (λ text. text.items ≡ counts_text tri.now.halves turns.now genus) }
{
    let mut text = Vec::new(alloc);
    put_count(
        alloc,
        &mut text,
        b"valid\ntriangles ",
        u64::from(tri.triangles()),
    )?;
    put_count(alloc, &mut text, b"\nedges ", u64::from(edges(tri)))?;
    put_count(alloc, &mut text, b"\nvertices ", turns.len() as u64)?;
    put_count(alloc, &mut text, b"\ngenus ", u64::from(genus))?;
    text.extend_from_slice(b"\ncones")?;
    put_numbers(alloc, &mut text, turns)?;
    text.extend_from_slice(b"\nend\n")?;
    Ok(text)
}
/// Appends a label and a count.
fn put_count(alloc: Global, out: &mut Vec<u8>, label: &[u8], count: u64) -> Result<(), AllocError>
    ensures { OnOk result (out.new.items ≡ out.old.items ++ (label.now ++ natural_text count)) }
{
    out.extend_from_slice(label)?;
    put_natural(alloc, out, count)
}

/// Appends numbers, each with a space before it.
pub(crate) fn put_numbers(
    alloc: Global,
    out: &mut Vec<u8>,
    numbers: &[u32],
) -> Result<(), AllocError>
    ensures { OnOk result (out.new.items ≡ out.old.items ++ numbers_text numbers.now) }
{
    for number in numbers {
        out.push(b' ')?;
        put_natural(alloc, out, u64::from(*number))?;
    }
    Ok(())
}

/// How many edges there are.
fn edges(tri: &Tri) -> u32
    ensures { result ≡ edge_count tri.now.halves }
{
    let mut edges: u32 = 0;
    for h in 0..3 * tri.triangles() {
        if tri.is_edge(h) {
            edges += 1;
        }
    }
    edges
}

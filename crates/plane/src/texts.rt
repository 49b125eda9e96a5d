//! Numbers and vectors written as text, in their one spelling.

ghost use Rattle.std.specs.Prelude.{◌≡◌, ◌+◌, ◌≤◌, ◌++◌, IsOk, OnOk, OnErr, vec_len};
ghost use Rattle.std.specs.Vec.{vec_capacity};
ghost use Rattle.plane.specs.Spelling.{natural_text, whole_text, root_text, quad_text, vector_text};

use super::Vec2;
use itoa::Buffer;
use quad_field::Quad;
use std::alloc::{AllocError, Global};

/// No text of a whole number in i128 is longer.
pub const WHOLE_LENGTH: usize = 40;

/// No text of a K-integer with parts in i128 is longer: a sign and `r` beside two whole numbers.
pub const QUAD_LENGTH: usize = 82;

/// No text of a vector with parts in i128 is longer.
pub const VECTOR_LENGTH: usize = 165;

/// Appends the text of a whole number.
fn append_whole(out: &mut Vec<u8>, n: i128)
    requires { vec_len out.old + WHOLE_LENGTH ≤ vec_capacity out.old }
    ensures items { out.new.items ≡ out.old.items ++ whole_text n }
    ensures len { vec_len out.new ≤ vec_len out.old + WHOLE_LENGTH }
    ensures capacity { vec_capacity out.old ≤ vec_capacity out.new }
{
    let mut buffer = Buffer::new();
    out.extend_from_slice(buffer.format(n).as_bytes()).unwrap();
}

/// Appends how many times √D.
fn append_root(out: &mut Vec<u8>, n: i128)
    requires { vec_len out.old + (WHOLE_LENGTH + 2) ≤ vec_capacity out.old }
    ensures items { out.new.items ≡ out.old.items ++ root_text n }
    ensures len { vec_len out.new ≤ vec_len out.old + (WHOLE_LENGTH + 2) }
    ensures capacity { vec_capacity out.old ≤ vec_capacity out.new }
{
    if n == 0 {
        return;
    }
    if n > 0 {
        out.push(b'+').unwrap();
    }
    append_whole(out, n);
    out.push(b'r').unwrap();
}

/// Appends the text of a K-integer.
fn append_quad(out: &mut Vec<u8>, x: Quad)
    requires { vec_len out.old + QUAD_LENGTH ≤ vec_capacity out.old }
    ensures items { out.new.items ≡ out.old.items ++ quad_text x }
    ensures len { vec_len out.new ≤ vec_len out.old + QUAD_LENGTH }
    ensures capacity { vec_capacity out.old ≤ vec_capacity out.new }
{
    append_whole(out, x.a);
    append_root(out, x.b);
}

/// Appends the text of a natural number. After an error, which comes only where there is no room for the longest
/// text of a whole number, all is as it was.
pub fn put_natural(alloc: Global, out: &mut Vec<u8>, n: u64) -> Result<(), AllocError>
    ensures room { vec_len out.old + WHOLE_LENGTH ≤ vec_capacity out.old → IsOk result }
    ensures ok { OnOk result (out.new.items ≡ out.old.items ++ natural_text n) }
    ensures err { OnErr result (out.new.items ≡ out.old.items) }
{
    out.reserve(WHOLE_LENGTH)?;
    append_whole(out, i128::from(n));
    Ok(())
}

/// Appends the text of a whole number. After an error, which comes only where there is no room for the longest text,
/// all is as it was.
pub fn put_whole(alloc: Global, out: &mut Vec<u8>, n: i128) -> Result<(), AllocError>
    ensures room { vec_len out.old + WHOLE_LENGTH ≤ vec_capacity out.old → IsOk result }
    ensures ok { OnOk result (out.new.items ≡ out.old.items ++ whole_text n) }
    ensures err { OnErr result (out.new.items ≡ out.old.items) }
{
    out.reserve(WHOLE_LENGTH)?;
    append_whole(out, n);
    Ok(())
}

/// Appends the text of a K-integer. After an error, which comes only where there is no room for the longest text,
/// all is as it was.
pub fn put_quad(alloc: Global, out: &mut Vec<u8>, x: Quad) -> Result<(), AllocError>
    ensures room { vec_len out.old + QUAD_LENGTH ≤ vec_capacity out.old → IsOk result }
    ensures ok { OnOk result (out.new.items ≡ out.old.items ++ quad_text x) }
    ensures err { OnErr result (out.new.items ≡ out.old.items) }
{
    out.reserve(QUAD_LENGTH)?;
    append_quad(out, x);
    Ok(())
}

/// Appends the text of a vector. After an error, which comes only where there is no room for the longest text,
/// all is as it was.
pub fn put_vector(alloc: Global, out: &mut Vec<u8>, v: &Vec2) -> Result<(), AllocError>
    ensures room { vec_len out.old + VECTOR_LENGTH ≤ vec_capacity out.old → IsOk result }
    ensures ok { OnOk result (out.new.items ≡ out.old.items ++ vector_text v.now) }
    ensures err { OnErr result (out.new.items ≡ out.old.items) }
{
    out.reserve(VECTOR_LENGTH)?;
    append_quad(out, v.s);
    out.push(b',').unwrap();
    append_quad(out, v.t);
    Ok(())
}

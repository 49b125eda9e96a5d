//! The square file with each byte in each place.

use super::plain_reader::{name_of, refusal};
use super::{TORUS, TORUS_COUNTS, run, sound};
use std::alloc::{AllocError, Global};
use std::test::Fail;

/// The status and the text that a file is owed, by the second reader. What it accepts is a parallelogram with its opposite sides
/// glued, so a torus of two triangles with one vertex.
fn owed(alloc: Global, file: &[u8]) -> Result<(u8, Vec<u8>), AllocError> {
    match refusal(alloc, file)? {
        None => Ok((0, Vec::from_slice(alloc, TORUS_COUNTS)?)),
        Some((cause, line)) => {
            let name = name_of(cause);
            let text = format!(in alloc; "fault file {cause} {line} {name}\n")?;
            Ok((3, text.into_bytes()))
        }
    }
}

/// Accepted are the file itself, once for each place, and the fields 3, 5, 6 and 7.
#[test]
fn judges_each_byte_in_each_place(rt: HostRuntime) -> Result<(), Fail> {
    let alloc = rt.alloc();
    let mut accepted = 0u32;
    for place in 0..TORUS.len() {
        for byte in 0..=255u8 {
            let mut file = Vec::from_slice(alloc, TORUS)?;
            if let Some(changed) = file.get_mut(place) {
                *changed = byte;
            }
            let (status, text) = owed(alloc, file.as_slice())?;
            let (ended, written) = run(alloc, &["check"], file.as_slice(), sound())?;
            assert_eq!(rt; ended, status, "byte {byte} in place {place}");
            assert_eq!(rt;
                written.as_slice(),
                text.as_slice(),
                "byte {byte} in place {place}"
            );
            if ended == 0 {
                accepted = accepted.saturating_add(1);
            }
        }
    }
    assert_eq!(rt; accepted, 75);
    Ok(())
}

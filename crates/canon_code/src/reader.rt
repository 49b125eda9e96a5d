//! Reading a code.

ghost use Rattle.std.specs.Prelude.{◌≡◌, ◌⊎◌, ℤ, List, IfOk, OnOk, IfErr, MatchResult};
ghost use Rattle.canon_code.specs.declared.fault.CodeFault.TheVariants.{Form, NotCode, Memory};
ghost use Rattle.canon_code.specs.Canonical.{canonical, IsMade};
ghost use Rattle.canon_code.specs.CodeText.{Lists};
ghost use Rattle.canon_code.specs.Refusals.{ListsTriangulation, IsCodeOver, IsCause, IsFree};
ghost use Rattle.canon_code.specs.Listing.{IsListingFault, IsFaultOf};

use super::canon::canon_of;
use super::text::numbers_of;
use super::triangulation::{Unlisted, halves_of, triangles_of};
use super::{CanonFault, Code, CodeFault};
use quad_field::{Field, Formula};
use std::alloc::Global;
use tri_core::{BadTri, Tri};

/// Why the numbers aren't read, where half-edges are refused.
fn fault_of(bad: BadTri) -> CodeFault
    ensures { IsFaultOf bad result }
{
    match bad {
        BadTri::Wide(formula) => CodeFault::Wide(formula),
        BadTri::Memory => CodeFault::Memory,
        BadTri::Count => CodeFault::NotCode,
        BadTri::Sum(_) => CodeFault::NotCode,
        BadTri::Turn(_) => CodeFault::NotCode,
        BadTri::Twin(_) => CodeFault::NotCode,
        BadTri::Apart(_) => CodeFault::NotCode,
    }
}

/// The triangulation that the numbers list.
fn listed(alloc: Global, f: &Field, numbers: &[i128]) -> Result<Tri, CodeFault>
    ensures tri { IfOk result (λ tri. tri ≡ record { field = f.now; halves = canonical f.now numbers.now }) }
    ensures lists { OnOk result (ListsTriangulation f.now numbers.now) }
    ensures fault { IfErr result (IsListingFault f.now numbers.now) }
{
    let _number = f.number();
    let Some(count) = triangles_of(numbers) else {
        return Err(CodeFault::NotCode);
    };
    let halves = match halves_of(alloc, numbers, count) {
        Ok(halves) => halves,
        Err(Unlisted::Twin) => return Err(CodeFault::NotCode),
        Err(Unlisted::Third) => return Err(CodeFault::Wide(Formula::F13)),
        Err(Unlisted::Memory) => return Err(CodeFault::Memory),
    };
    match Tri::make(alloc, f, halves) {
        Ok(tri) => Ok(tri),
        Err(bad) => Err(fault_of(bad)),
    }
}

/// The code that the numbers are.
fn code_of(alloc: Global, f: &Field, numbers: &[i128]) -> Result<Code, CodeFault>
    ensures code { IfOk result (λ c. (c ≡ numbers.now) × IsMade f.now c) }
    ensures fault { IfErr result (IsListingFault f.now numbers.now) }
{
    let _number = f.number();
    let tri = match listed(alloc, f, numbers) {
        Ok(tri) => tri,
        Err(fault) => return Err(fault),
    };
    let code = match canon_of(alloc, f, &tri) {
        Ok(canon) => canon.code,
        Err(CanonFault::Wide) => return Err(CodeFault::Wide(Formula::F1)),
        Err(CanonFault::Memory) => return Err(CodeFault::Memory),
    };
    if code.numbers() == numbers {
        Ok(code)
    } else {
        Err(CodeFault::NotCode)
    }
}

/// The code of a triangulation over this field that the bytes spell.
/// `CodeFault::Wide` may stand in place of the code or of `CodeFault::NotCode` where it has a cause.
pub fn read_code(alloc: Global, f: &Field, text: &[u8]) -> Result<Code, CodeFault>
    ensures code { IfOk result (λ c. Lists text.now c × IsMade f.now c) }
    ensures cause { IfErr result (IsCause f.now text.now) }
    // The other way round: what has its cause is answered, unless width or memory stands in its place.
    ensures form { ((numbers : List ℤ) → ¬ (Lists text.now numbers)) → MatchResult result (λ _. ⊥) (λ fault. (fault ≡ Form) ⊎ (fault ≡ Memory)) }
    ensures taken { (numbers : List ℤ) → Lists text.now numbers → IsCodeOver f.now numbers → MatchResult result (λ c. c ≡ numbers) IsFree }
    ensures refused { (numbers : List ℤ) → Lists text.now numbers → ¬ (IsCodeOver f.now numbers)
        → MatchResult result (λ _. ⊥) (λ fault. (fault ≡ NotCode) ⊎ IsFree fault) }
{
    match numbers_of(alloc, text) {
        Ok(numbers) => code_of(alloc, f, numbers.as_slice()),
        Err(fault) => Err(fault),
    }
}

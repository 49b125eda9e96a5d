//! The laws of cutting, each the contract of a function that does nothing.

ghost use Rattle.std.specs.Prelude.{◌≡◌, List};
ghost use Rattle.tri_core.specs.declared.half.Half.{Half};
ghost use Rattle.tri_core.specs.Triangulation.{IsTriangulation};
ghost use Rattle.gluing.specs.Gluings.{Gluing, IsGluing};
ghost use Rattle.ear_cut.specs.Cuttings.{IsEarCutting};

/// Glued polygons are cut into some list of half-edges: as long as more than three sides are left, there is an ear.
pub fn some_cutting()
    ensures { (g : Gluing) → IsGluing g → (halves : List Half) × IsEarCutting g halves }
{}

/// And into no other.
pub fn one_cutting()
    ensures { (g : Gluing) → IsGluing g → (halves others : List Half) → IsEarCutting g halves → IsEarCutting g others → halves ≡ others }
{}

/// What they are cut into is a triangulation.
pub fn triangulated()
    ensures { (g : Gluing) → IsGluing g → (halves : List Half) → IsEarCutting g halves → IsTriangulation g.field halves }
{}

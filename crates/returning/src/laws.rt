//! The theorem on the returning derivatives, each part the contract of a function that does nothing.

ghost use Rattle.std.specs.Prelude.{◌≡◌, ◌↔◌, ◌<◌, ℕ, ℤ, List, length};
ghost use Rattle.std.specs.List.{Contains};
ghost use Rattle.std.specs.Ordering.{int_cmp};
ghost use Rattle.std.specs.Cmp.Lexicographic.{slice_cmp};
ghost use Rattle.quad_field.specs.FieldNumber.{IsFieldNumber};
ghost use Rattle.plane.specs.Matrices.{FieldMatrix};
ghost use Rattle.tri_core.specs.declared.half.Half.{Half};
ghost use Rattle.tri_core.specs.Triangulation.{IsTriangulation};
ghost use Rattle.terrain.specs.declared.graph.Lead.{Lead};
ghost use Rattle.terrain.specs.Places.{IsAt};
ghost use Rattle.terrain.specs.Graphs.{IsGraph};
ghost use Rattle.class_node.specs.Classes.{field_of, HasWalls};
ghost use Rattle.class_node.specs.Leads.{IsFrame, LeadsBy};
ghost use Rattle.class_node.specs.Reached.{IsRootOf};
ghost use Rattle.quotient.specs.Trees.{row_at, HasLead, IsReachedFrom, IsTree};
ghost use Rattle.quotient.specs.Quotients.{AreQuotients};
ghost use Rattle.returning.specs.Returning.{IsMatrix, IsReturning, IsGenerated, HasDeterminantOne};
ghost use Rattle.returning.specs.Turns.{AreTurns};

/// The quotients of a base's graph and turns generate exactly the returning derivatives of the base (Bowman).
pub fn quotients_generate_the_returning_derivatives()
    ensures { (t root : List ℤ) (base : List Half) (keys : List (List ℤ)) (rows : List (List (Lead FieldMatrix))) (place : ℕ) (first : FieldMatrix)
        (turns : List (List FieldMatrix)) (tree quotients : List FieldMatrix)
        → IsRootOf t root base → IsGraph (slice_cmp int_cmp) (HasWalls t) (LeadsBy t) root keys rows place → IsFrame (field_of t) base root first
        → AreTurns (field_of t) keys turns → IsTree (field_of t) rows place first tree → AreQuotients (field_of t) tree rows turns quotients
        → (a : FieldMatrix) → IsGenerated (field_of t) quotients a ↔ IsReturning (field_of t) base a }
{
    canon_code::laws::starts_are_symmetries();
}

/// And each of these quotients has determinant 1.
pub fn quotients_have_determinant_one()
    ensures { (t root : List ℤ) (base : List Half) (keys : List (List ℤ)) (rows : List (List (Lead FieldMatrix))) (place : ℕ) (first : FieldMatrix)
        (turns : List (List FieldMatrix)) (tree quotients : List FieldMatrix)
        → IsRootOf t root base → IsGraph (slice_cmp int_cmp) (HasWalls t) (LeadsBy t) root keys rows place → IsFrame (field_of t) base root first
        → AreTurns (field_of t) keys turns → IsTree (field_of t) rows place first tree → AreQuotients (field_of t) tree rows turns quotients
        → (a : FieldMatrix) → Contains quotients a → HasDeterminantOne (field_of t) a }
{
    canon_code::laws::starts_are_symmetries();
}

/// A returning derivative of a triangulation has determinant 1.
pub fn returning_derivatives_have_determinant_one()
    ensures { (d : ℕ) (base : List Half) (a : FieldMatrix) → IsFieldNumber d → IsTriangulation d base → IsReturning d base a → HasDeterminantOne d a }
{}

/// A base's graph has what its quotients ask for: each place is reached by leads from the root's, the target of each lead is a place,
/// and the links, the base's frame and the turns have positive determinants.
pub fn graphs_have_quotients()
    ensures reached { (t root : List ℤ) (base : List Half) (keys : List (List ℤ)) (rows : List (List (Lead FieldMatrix))) (place : ℕ)
        → IsRootOf t root base → IsGraph (slice_cmp int_cmp) (HasWalls t) (LeadsBy t) root keys rows place
        → (place < length rows) × ((c : ℕ) → c < length rows → IsReachedFrom rows place c) }
    ensures targets { (t root : List ℤ) (base : List Half) (keys : List (List ℤ)) (rows : List (List (Lead FieldMatrix))) (place : ℕ)
        → IsRootOf t root base → IsGraph (slice_cmp int_cmp) (HasWalls t) (LeadsBy t) root keys rows place
        → (c w : ℕ) (lead : Lead FieldMatrix) → c < length rows → HasLead rows c w lead → lead.to < length rows }
    ensures links { (t root : List ℤ) (base : List Half) (keys : List (List ℤ)) (rows : List (List (Lead FieldMatrix))) (place : ℕ)
        → IsRootOf t root base → IsGraph (slice_cmp int_cmp) (HasWalls t) (LeadsBy t) root keys rows place
        → (c w : ℕ) (lead : Lead FieldMatrix) → c < length rows → HasLead rows c w lead → IsMatrix (field_of t) lead.link }
    ensures first { (t root : List ℤ) (base : List Half) (first : FieldMatrix) → IsRootOf t root base → IsFrame (field_of t) base root first → IsMatrix (field_of t) first }
    ensures turns { (t root : List ℤ) (base : List Half) (keys : List (List ℤ)) (rows : List (List (Lead FieldMatrix))) (place : ℕ) (turns : List (List FieldMatrix))
        → IsRootOf t root base → IsGraph (slice_cmp int_cmp) (HasWalls t) (LeadsBy t) root keys rows place → AreTurns (field_of t) keys turns
        → (length turns ≡ length rows) × ((c w : ℕ) (turn : FieldMatrix) → c < length turns → IsAt (row_at turns c) w turn → IsMatrix (field_of t) turn) }
{}

//! The laws of trees and quotients, each the contract of a function that does nothing.

ghost use Rattle.std.specs.Prelude.{◌≡◌, ◌<◌, ℕ, List, length};
ghost use Rattle.rings.specs.Matrices.{matrix_det};
ghost use Rattle.quad_field.specs.FieldNumber.{IsFieldNumber};
ghost use Rattle.quad_field.specs.Quads.{quad_ops, IsZero};
ghost use Rattle.plane.specs.Matrices.{FieldMatrix};
ghost use Rattle.terrain.specs.declared.graph.Lead.{Lead};
ghost use Rattle.terrain.specs.Places.{IsAt};
ghost use Rattle.quotient.specs.Trees.{row_at, matrix_at, HasLead, IsTree};
ghost use Rattle.quotient.specs.Quotients.{AreQuotients};

/// A graph has one tree with one matrix at the root, where the denominators of that and of the links are above zero.
pub fn one_tree()
    ensures { (d : ℕ) (rows : List (List (Lead FieldMatrix))) (root : ℕ) (first : FieldMatrix) (one other : List FieldMatrix)
        → 0 < first.denominator
        → ((c w : ℕ) (lead : Lead FieldMatrix) → c < length rows → HasLead rows c w lead → 0 < lead.link.denominator)
        → IsTree d rows root first one → IsTree d rows root first other → one ≡ other }
{}

/// And a tree and turns have one list of quotients, where all denominators are above zero and no matrix of the tree has determinant zero.
pub fn one_list_of_quotients()
    ensures { (d : ℕ) (tree : List FieldMatrix) (rows : List (List (Lead FieldMatrix))) (turns : List (List FieldMatrix)) (one other : List FieldMatrix)
        → IsFieldNumber d
        → ((c : ℕ) → c < length tree → (0 < (matrix_at tree c).denominator) × ¬ (IsZero (matrix_det (quad_ops d) (matrix_at tree c).rows)))
        → ((c w : ℕ) (lead : Lead FieldMatrix) → c < length rows → HasLead rows c w lead → 0 < lead.link.denominator)
        → ((c w : ℕ) (turn : FieldMatrix) → c < length turns → IsAt (row_at turns c) w turn → 0 < turn.denominator)
        → AreQuotients d tree rows turns one → AreQuotients d tree rows turns other → one ≡ other }
{}

//! The laws of classes, each the contract of a function that does nothing.

ghost use Rattle.std.specs.Prelude.{◌↔◌, ◌*◌, ◌<◌, ℕ, ℤ, List, length};
ghost use Rattle.std.specs.List.{Contains};
ghost use Rattle.std.specs.Ordering.{int_cmp};
ghost use Rattle.std.specs.Cmp.Lexicographic.{slice_cmp};
ghost use Rattle.rings.specs.Matrices.{Matrix, matrix_product};
ghost use Rattle.quad_field.specs.Quads.{quad_ops};
ghost use Rattle.quad_field.specs.declared.quad.Quad.{Quad};
ghost use Rattle.plane.specs.Matrices.{FieldMatrix};
ghost use Rattle.tri_core.specs.declared.half.Half.{Half};
ghost use Rattle.tri_core.specs.Triangulation.{IsTriangulation};
ghost use Rattle.tri_core.specs.Images.{IsImage, IsImageBy};
ghost use Rattle.parabola_region.specs.WallLists.{PlainWall, form_of, edges_of, IsWallList};
ghost use Rattle.wall_cross.specs.Crossings.{Crosses, IsReached};
ghost use Rattle.terrain.specs.declared.graph.Lead.{Lead};
ghost use Rattle.terrain.specs.Graphs.{IsGraph};
ghost use Rattle.canon_code.specs.Codes.{IsCode};
ghost use Rattle.canon_code.specs.Canonical.{canonical};
ghost use Rattle.class_node.specs.Classes.{field_of, IsClassOver, AreWallsOf, HasWalls};
ghost use Rattle.class_node.specs.Leads.{IsLead, LeadsBy};
ghost use Rattle.class_node.specs.Correspondence.{AreMatchingWalls, AreOneToOne};
ghost use Rattle.class_node.specs.Reached.{IsReachedCode, IsReachedKey, HasAllLeads, IsRootOf};

/// The walls of each image of the canonical triangulation of a class correspond one to one to the walls of the class.
pub fn walls_are_those_of_the_class()
    ensures { (d : ℕ) (code : List ℤ) (a : Matrix Quad) (p : ℕ) (to : List Half) (forth back : ℕ → ℕ) (walls others : List PlainWall)
        → IsClassOver d code → AreWallsOf d code walls → IsTriangulation d to → IsImage d a p (canonical d code) to forth back → IsWallList d to others
        → AreOneToOne d a (canonical d code) to forth walls others }
{}

/// Where a wall of a class leads to a class by G, the crossing of the wall to which A carries it is, up to a translation,
/// the image by A·G of the canonical triangulation of that class, for each image by A of the canonical triangulation of the class.
pub fn crossings_are_those_of_the_class()
    ensures each { (d : ℕ) (code : List ℤ) (a : Matrix Quad) (p : ℕ) (to later : List Half) (walls others : List PlainWall) (w v : ℕ) (e : List ℤ) (g : FieldMatrix)
        → IsClassOver d code → AreWallsOf d code walls → IsTriangulation d to → IsImageBy d a p (canonical d code) to → IsWallList d to others
        → w < length walls → v < length others → AreMatchingWalls d a walls w others v
        → IsLead d code w e g → Crosses d to (form_of others v) (edges_of others v) later
        → IsImageBy d (matrix_product (quad_ops d) a g.rows) (p * g.denominator) (canonical d e) later }
    ensures merely { (t code : List ℤ) (a : Matrix Quad) (p : ℕ) (to later : List Half) (walls others : List PlainWall) (w v : ℕ) (e : List ℤ) (g : FieldMatrix)
        → AreWallsOf (field_of t) code walls → IsTriangulation (field_of t) to → IsImageBy (field_of t) a p (canonical (field_of t) code) to → IsWallList (field_of t) to others
        → w < length walls → v < length others → AreMatchingWalls (field_of t) a walls w others v
        → LeadsBy t code w e g → Crosses (field_of t) to (form_of others v) (edges_of others v) later
        → ∥ IsImageBy (field_of t) (matrix_product (quad_ops (field_of t)) a g.rows) (p * g.denominator) (canonical (field_of t) e) later ∥₁ }
{}

/// The keys that leads reach from the code of a base are the codes of the triangulations that finitely many crossings reach from the base:
/// each is one, and where no lead is missing each of those is reached.
pub fn reached_keys_are_reached_codes()
    ensures sound { (t root : List ℤ) (base : List Half) (k : List ℤ) → IsRootOf t root base → IsReachedKey t root k → IsReachedCode (field_of t) base k }
    ensures complete { (t root : List ℤ) (base : List Half) (k : List ℤ) → IsRootOf t root base → HasAllLeads t root → IsReachedCode (field_of t) base k → IsReachedKey t root k }
{}

/// The keys of a graph of the reached keys are exactly the codes of the triangulations that finitely many crossings reach from the base.
pub fn keys_of_a_graph_are_reached_codes()
    ensures { (t root : List ℤ) (base : List Half) (keys : List (List ℤ)) (rows : List (List (Lead FieldMatrix))) (place : ℕ) → IsRootOf t root base
        → IsGraph (slice_cmp int_cmp) (HasWalls t) (LeadsBy t) root keys rows place
        → (k : List ℤ) → Contains keys k ↔ IsReachedCode (field_of t) base k }
{}

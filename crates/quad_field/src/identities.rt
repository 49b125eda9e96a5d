//! Identities of determinants, lengths and hinge triples over the K-integers of any D, each the contract of a
//! function that does nothing.

ghost use Rattle.std.specs.Prelude.{◌≡◌, ℕ, pos};
ghost use Rattle.rings.specs.Forms.{det as determinant, length_by, inner_value, value_at, three_row_determinant, hinge_triple, discriminant, chord_point as chord, upright_chord_point};
ghost use Rattle.quad_field.specs.Quads.{quad_ops};
ghost use Rattle.quad_field.specs.declared.quad.Quad.{Quad};

/// det(u, v)·w = det(w, v)·u + det(u, w)·v, by components.
pub fn three_vectors()
    ensures first { (d : ℕ) (u v w : Quad × Quad) → let O = quad_ops d in
        O.mul (determinant O u v) w.0 ≡ O.add (O.mul (determinant O w v) u.0) (O.mul (determinant O u w) v.0) }
    ensures second { (d : ℕ) (u v w : Quad × Quad) → let O = quad_ops d in
        O.mul (determinant O u v) w.1 ≡ O.add (O.mul (determinant O w v) u.1) (O.mul (determinant O u w) v.1) }
{}

/// The value of a hinge's triple at a point is the determinant of three rows.
pub fn hinge_value()
    ensures { (D : ℕ) (q : Quad × Quad × Quad) (a c d : Quad × Quad) → let O = quad_ops D in
        three_row_determinant O q a c d ≡ value_at O (hinge_triple O a c d) q }
{}

/// The chord point of a line (α, β, γ) lies on it, and its inner value is γ²·(β² - 4αγ); where γ = 0 that is β²·β².
pub fn chord_point()
    ensures on_line { (d : ℕ) (l : Quad × Quad × Quad) → let O = quad_ops d in value_at O l (chord O l) ≡ O.int (pos 0) }
    ensures inner { (d : ℕ) (l : Quad × Quad × Quad) → let O = quad_ops d in
        inner_value O (chord O l) ≡ O.mul (O.mul l.2 l.2) (discriminant O l) }
    ensures upright_on_line { (d : ℕ) (α β : Quad) → let O = quad_ops d in
        value_at O (α, β, O.int (pos 0)) (upright_chord_point O (α, β, O.int (pos 0))) ≡ O.int (pos 0) }
    ensures upright_inner { (d : ℕ) (α β : Quad) → let O = quad_ops d in
        inner_value O (upright_chord_point O (α, β, O.int (pos 0))) ≡ O.mul (O.mul β β) (O.mul β β) }
{}

/// w·len(v) = (w·s + x·t)² + (w·y - x²)·t², for v = (s, t).
pub fn completed_square()
    ensures { (d : ℕ) (q : Quad × Quad × Quad) (v : Quad × Quad) → let O = quad_ops d in
        let sum = O.add (O.mul q.0 v.0) (O.mul q.1 v.1) in
        O.mul q.0 (length_by O q v) ≡ O.add (O.mul sum sum) (O.mul (inner_value O q) (O.mul v.1 v.1)) }
{}

//! The laws of codes, each the contract of a function that does nothing.

ghost use Rattle.std.specs.Prelude.{◌≡◌, ◌↔◌, ◌<◌, ℕ, ℤ, List, length};
ghost use Rattle.quad_field.specs.FieldNumber.{IsFieldNumber};
ghost use Rattle.quad_field.specs.Quads.{quad_ops, IsPositive};
ghost use Rattle.quad_field.specs.declared.quad.Quad.{Quad};
ghost use Rattle.tri_core.specs.declared.half.Half.{Half};
ghost use Rattle.tri_core.specs.Triangulation.{IsTriangulation};
ghost use Rattle.rings.specs.Matrices.{Matrix, matrix_det};
ghost use Rattle.tri_core.specs.Images.{IsImage, IsImageBy, AreOfOneClass, CarriesFrame};
ghost use Rattle.canon_code.specs.Serials.{IsSerial};
ghost use Rattle.canon_code.specs.Codes.{IsCode, IsStart};
ghost use Rattle.canon_code.specs.Canonical.{canonical, scale_of, frame};
ghost use Rattle.canon_code.specs.CodeText.{numbers_text};

/// The serial of an image at the image of a start is the serial at the start.
pub fn image_keeps_serials()
    ensures { (d : ℕ) (n : Matrix Quad) (m : ℕ) (from to : List Half) (forth back : ℕ → ℕ) (h : ℕ) (serial : List ℤ)
        → IsFieldNumber d → IsTriangulation d from → IsTriangulation d to → IsImage d n m from to forth back → h < length from
        → IsSerial d from h serial ↔ IsSerial d to (forth h) serial }
{}

/// A start has one serial, and a triangulation one code.
pub fn only_one()
    ensures serial { (d : ℕ) (halves : List Half) (h : ℕ) (one other : List ℤ) → IsFieldNumber d → IsTriangulation d halves → h < length halves
        → IsSerial d halves h one → IsSerial d halves h other → one ≡ other }
    ensures code { (d : ℕ) (halves : List Half) (one other : List ℤ) → IsCode d halves one → IsCode d halves other → one ≡ other }
{}

/// Codes are equal exactly for triangulations of one class.
pub fn one_class()
    ensures { (d : ℕ) (from to : List Half) (code other : List ℤ) → IsFieldNumber d → IsTriangulation d from → IsTriangulation d to → IsCode d from code → IsCode d to other
        → (code ≡ other) ↔ AreOfOneClass d from to }
{}

/// The matrices that take a triangulation to itself are those that take the frame of one start of least serial to the frame of another.
pub fn starts_are_symmetries()
    ensures { (d : ℕ) (halves : List Half) (code : List ℤ) (first : ℕ) (n : Matrix Quad) (m : ℕ) → IsFieldNumber d → IsTriangulation d halves → IsStart d halves code first → 0 < m
        → IsImageBy d n m halves halves ↔ ((h : ℕ) × IsStart d halves code h × CarriesFrame d n m halves first halves h) }
{}

/// The canonical triangulation of a serial is a triangulation with this serial at half-edge 0, and the frame takes it to the one that the serial is of.
pub fn canonical_triangulation()
    ensures valid { (d : ℕ) (halves : List Half) (h : ℕ) (serial : List ℤ) → IsFieldNumber d → IsTriangulation d halves → h < length halves → IsSerial d halves h serial
        → IsTriangulation d (canonical d serial) }
    ensures serial { (d : ℕ) (halves : List Half) (h : ℕ) (serial : List ℤ) → IsFieldNumber d → IsTriangulation d halves → h < length halves → IsSerial d halves h serial
        → IsSerial d (canonical d serial) 0 serial }
    ensures framed { (d : ℕ) (halves : List Half) (h : ℕ) (serial : List ℤ) → IsFieldNumber d → IsTriangulation d halves → h < length halves → IsSerial d halves h serial
        → IsImageBy d (frame halves h) (scale_of serial) (canonical d serial) halves }
{}

/// Each start has a serial, and each triangulation a code.
pub fn there_is_one()
    ensures serial { (d : ℕ) (halves : List Half) (h : ℕ) → IsFieldNumber d → IsTriangulation d halves → h < length halves → (serial : List ℤ) × IsSerial d halves h serial }
    ensures code { (d : ℕ) (halves : List Half) → IsFieldNumber d → IsTriangulation d halves → (code : List ℤ) × IsCode d halves code }
{}

/// The code of the canonical triangulation of a code is the code.
pub fn canonical_keeps_the_code()
    ensures { (d : ℕ) (halves : List Half) (code : List ℤ) → IsFieldNumber d → IsTriangulation d halves → IsCode d halves code → IsCode d (canonical d code) code }
{}

/// A text lists one list of numbers.
pub fn a_text_lists_one_list()
    ensures { (numbers other : List ℤ) → numbers_text numbers ≡ numbers_text other → numbers ≡ other }
{}

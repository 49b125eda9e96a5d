//! The laws of reports and their texts, each the contract of a function that does nothing.

ghost use Rattle.std.specs.Prelude.{◌≡◌, ℕ, ℤ, List};
ghost use Rattle.plane.specs.Matrices.{FieldMatrix};
ghost use Rattle.surface_text.specs.declared.file.Point.{Point};
ghost use Rattle.report_text.specs.declared.fault.ReportFault.{ReportFault};
ghost use Rattle.report_text.specs.Reports.{matrix_text, report_text};
ghost use Rattle.report_text.specs.Limits.{IsReport};
ghost use Rattle.report_text.specs.Refusals.{IsFaultOf, IsFree};

/// A line is that of one matrix.
pub fn one_matrix()
    ensures { (one other : FieldMatrix) → matrix_text one ≡ matrix_text other → one ≡ other }
{}

/// Two reports with one text are the same. So what `print` gives for a report within the limits is read as that report and no other.
pub fn one_report()
    ensures { (d e : ℕ) (at to : Point) (codes others : List (List ℤ)) (mats more : List FieldMatrix) → report_text d at codes mats ≡ report_text e to others more
        → (d ≡ e) × (at ≡ to) × (codes ≡ others) × (mats ≡ more) }
{}

/// A text is refused in one way, but for width and want of memory.
pub fn one_refusal()
    ensures { (bytes : List ℕ) (fault other : ReportFault) → IsFaultOf bytes fault → IsFaultOf bytes other → ¬ (IsFree fault) → ¬ (IsFree other) → fault ≡ other }
{}

/// The text of a report within the limits is refused in none.
pub fn no_refusal()
    ensures { (bytes : List ℕ) (d : ℕ) (at : Point) (codes : List (List ℤ)) (mats : List FieldMatrix) (fault : ReportFault)
        → bytes ≡ report_text d at codes mats → IsReport d at codes mats → IsFaultOf bytes fault → IsFree fault }
{}

/// No text is neither that of a report within the limits nor refused.
pub fn report_or_refusal()
    ensures { (bytes : List ℕ) → ((d : ℕ) (at : Point) (codes : List (List ℤ)) (mats : List FieldMatrix) → bytes ≡ report_text d at codes mats → ¬ (IsReport d at codes mats))
        → ¬ ((fault : ReportFault) → IsFaultOf bytes fault → IsFree fault) }
{}

//! Why a text isn't read as a report.

ghost use Rattle.std.specs.Prelude.{◌≡◌};
ghost use Rattle.report_text.specs.declared.fault.ReportFault.TheVariants.{Memory};

use canon_code::CodeFault;
use std::alloc::AllocFailed;

/// Why a text isn't read as a report: its first bad line, counted from 1.
#[derive(Clone, Copy, Debug, PartialEq, Eq)]
pub enum ReportFault {
    /// The line that may not stand there, or is missing or cut.
    Bad { line: u64 },
    /// A line of a class in its place, and why what it lists isn't read as a code: any fault but want of memory.
    Code { line: u64, fault: CodeFault },
    /// Memory ran out.
    Memory,
}

impl<T: Drop> From<AllocFailed<T>> for ReportFault {
    ghost from_gives = { λ _ fault. fault ≡ Memory };

    fn from(_full: AllocFailed<T>) -> ReportFault {
        ReportFault::Memory
    }
}

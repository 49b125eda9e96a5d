//! Why a run has no output: the status that says so.

ghost use Rattle.std.specs.Prelude.{◌≡◌};
ghost use Rattle.veech_cli.specs.Refusals.{status_of_reading, status_of_text, status_of_gluing, status_of_base, status_of_region, status_of_walk};
ghost use Rattle.answer_text.specs.declared.status.Status.TheVariants.{Memory};

use answer_text::{NoCause, Place, Status};
use delaunay_flip::BaseFault;
use gluing::GlueFault;
use io_ends::ReadAll;
use parabola_region::RegionFault;
use path_walk::WalkFault;
use std::alloc::{AllocError, AllocFailed};
use surface_text::TextFault;

/// Why a run has no output: the status that it ends with, unless its line can't be written.
#[derive(Drop)]
pub(crate) struct Refusal {
    pub(crate) status: Status,
}

impl From<ReadAll> for Refusal {
    ghost from_gives = { λ fault refusal. refusal.status ≡ status_of_reading fault };

    fn from(fault: ReadAll) -> Refusal {
        let status = match fault {
            ReadAll::Fault => Status::ReadFault,
            ReadAll::TooLong => Status::File { cause: 0, line: 0 },
            ReadAll::Memory => Status::Memory,
        };
        Refusal { status }
    }
}

impl From<TextFault> for Refusal {
    ghost from_gives = { λ fault refusal. refusal.status ≡ status_of_text fault };

    fn from(fault: TextFault) -> Refusal {
        let status = match fault {
            TextFault::Bad { cause, line } => Status::File { cause, line },
            TextFault::Memory => Status::Memory,
        };
        Refusal { status }
    }
}

impl From<GlueFault> for Refusal {
    ghost from_gives = { λ fault refusal. refusal.status ≡ status_of_gluing fault };

    fn from(fault: GlueFault) -> Refusal {
        let status = match fault {
            GlueFault::Bad { cause, line } => Status::File { cause, line },
            GlueFault::Memory => Status::Memory,
        };
        Refusal { status }
    }
}

impl From<BaseFault> for Refusal {
    ghost from_gives = { λ fault refusal. refusal.status ≡ status_of_base fault };

    fn from(fault: BaseFault) -> Refusal {
        let status = match fault {
            BaseFault::NotStrict { edge } => Status::NotStrict { edge },
            BaseFault::FlipsEnded { point } => Status::FlipsEnded { point },
            BaseFault::Wide {
                formula,
                flips,
                edge,
            } => Status::TooWide {
                formula,
                place: Place::Flips { flips, edge },
            },
            BaseFault::Memory => Status::Memory,
        };
        Refusal { status }
    }
}

impl From<RegionFault> for Refusal {
    ghost from_gives = { λ fault refusal. refusal.status ≡ status_of_region fault };

    fn from(fault: RegionFault) -> Refusal {
        let status = match fault {
            RegionFault::Wide(formula) => Status::TooWide {
                formula,
                place: Place::Base,
            },
            RegionFault::Memory => Status::Memory,
        };
        Refusal { status }
    }
}

impl From<WalkFault> for Refusal {
    ghost from_gives = { λ fault refusal. refusal.status ≡ status_of_walk fault };

    fn from(fault: WalkFault) -> Refusal {
        let status = match fault {
            WalkFault::NoSuchWall { place } => Status::No(NoCause::Wall { place }),
            WalkFault::Wide { formula, place } => Status::TooWide {
                formula,
                place: Place::Walk { choice: place },
            },
            WalkFault::Memory => Status::Memory,
        };
        Refusal { status }
    }
}

impl From<AllocError> for Refusal {
    ghost from_gives = { λ _ refusal. refusal.status ≡ Memory };

    fn from(_error: AllocError) -> Refusal {
        Refusal {
            status: Status::Memory,
        }
    }
}

impl<T: Drop> From<AllocFailed<T>> for Refusal {
    ghost from_gives = { λ _ refusal. refusal.status ≡ Memory };

    fn from(_error: AllocFailed<T>) -> Refusal {
        Refusal {
            status: Status::Memory,
        }
    }
}

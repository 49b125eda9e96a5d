//! A surface file in memory, and why a text is none.

ghost use Rattle.std.specs.Prelude.{◌≡◌};
ghost use Rattle.surface_text.specs.declared.file.TextFault.TheVariants.{Memory};

use plane::Vec2;
use std::alloc::{AllocError, AllocFailed};
use thiserror::Error;

/// The base point X = xn/xd, Y = yn/yd, with both fractions in lowest terms and denominators of at least 1.
#[derive(Clone, Copy, Debug, PartialEq, Eq)]
pub struct Point {
    pub xn: i64,
    pub xd: i64,
    pub yn: i64,
    pub yd: i64,
}

/// A polygon: the vectors of its sides, counterclockwise.
#[derive(Debug, Drop)]
pub struct Polygon {
    pub sides: Vec<Vec2>,
}

/// Side `e1` of polygon `p1` is glued to side `e2` of polygon `p2`; both are numbered from 0.
#[derive(Clone, Copy, Debug, PartialEq, Eq)]
pub struct Glue {
    pub p1: u32,
    pub e1: u32,
    pub p2: u32,
    pub e2: u32,
}

/// A surface file: the number of its field, its base points, its polygons and its glue lines, in their order.
#[derive(Debug, Drop)]
pub struct SurfaceFile {
    pub field: u32,
    pub bases: Vec<Point>,
    pub polygons: Vec<Polygon>,
    pub glues: Vec<Glue>,
}

/// Why a text is no surface file.
#[derive(Debug, Drop, Error)]
pub enum TextFault {
    /// The first line with a fault, from 1, and the number of the least cause in it.
    #[error("cause {cause} in line {line}")]
    Bad { cause: u8, line: u64 },
    /// Memory ran out.
    #[error("out of memory")]
    Memory,
}

impl<T: Drop> From<AllocFailed<T>> for TextFault {
    ghost from_gives = { λ _ fault. fault ≡ Memory };

    fn from(_fault: AllocFailed<T>) -> TextFault {
        TextFault::Memory
    }
}

impl From<AllocError> for TextFault {
    ghost from_gives = { λ _ fault. fault ≡ Memory };

    fn from(_fault: AllocError) -> TextFault {
        TextFault::Memory
    }
}

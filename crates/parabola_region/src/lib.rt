//! The region of half-plane points at which a triangulation is Delaunay: exactly the lines that bound it, and the corners where
//! two of them meet.
#![tactic(auto)]

mod chord;
mod corner;
mod corner_list;
mod different;
mod fault;
mod hinge_list;
pub mod laws;
mod meeting;
mod stretch;
mod wall_list;

pub use corner::Corner;
pub use corner_list::corners;
pub use fault::RegionFault;
pub use wall_list::walls;

#[cfg(test)]
mod tests;

//! Commutative and ordered rings: polynomial identities by computation, and the signs of sums and products.
//! The lemmas hold in every such ring; the functions of `laws` say what they give for whole numbers.
#![tactic(auto)]

pub mod laws;

//! Object identifiers for C: the functions of `const_oid` over slices that the caller owns.
//!
//! No function allocates, keeps a pointer or has a precondition beyond its types.
//! `include/const_oid.h` declares the functions and says what a C caller must guarantee.
#![tactic(auto)]

pub mod arcs;
pub mod der;
pub mod errors;
pub mod lists;
pub mod order;
pub mod output;
pub mod status;
pub mod texts;
pub mod tree;
pub mod typed;

//! Uses of `const_oid`, as callers write them, each proved. `const_oid_tests` runs them. Those that no page names show
//! that the contracts suffice for more of what callers would prove.
#![tactic(auto)]

pub mod algorithms;
pub mod label;
pub mod schema;
pub mod subtree;
pub mod table;
pub mod theorems;
pub mod walk;

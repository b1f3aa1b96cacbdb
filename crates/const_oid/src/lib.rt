//! Object identifiers (ITU-T X.660) as text, arcs and contents octets (ITU-T X.690, 8.19).

// The examples in doc comments are Rust's: the cargo crate runs them. In Rattle no constant calls a function, borrowed
// identifiers have a size, `assert!` takes the host, and `to_string` an allocator. CALLING.md has examples in Rattle.
#![tactic(auto)]

pub mod arcs;
mod base128;
pub mod buffer;
// In Rust a key is generic over what holds an identifier.
// erase: omit
pub mod by_arcs;
mod compare;
pub mod db;
mod db_sorted;
mod digits;
mod element;
mod encoder;
pub mod error;
mod fast;
// Its functions have contracts, and no effect.
// erase: omit
pub mod laws;
pub(crate) mod links;
mod named;
pub mod oid;
pub mod oid_ref;
// Its functions are for the other crates, and so are those of `search`: Rust hides them.
pub mod outputs;
pub mod packed;
mod parser;
mod parts;
mod readable;
mod root;
pub mod search;
pub mod tables;
mod text;
// One of its functions is for C.
pub mod typed;
// Rust's traits have a constant.
// erase: omit
pub mod traits;
mod valid;

pub use arcs::Arcs;
pub use buffer::Buffer;
// erase: omit
pub use by_arcs::ByArcs;
pub use error::{Error, Result};
pub use oid::{ObjectIdentifier, Oid};
pub use oid_ref::ObjectIdentifierRef;
// erase: omit
pub use traits::{AssociatedOid, DynAssociatedOid};

/// One arc of an object identifier, a 32-bit number.
pub type Arc = u32;

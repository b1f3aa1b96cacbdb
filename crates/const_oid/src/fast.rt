//! The fast forms: octets are counted, copied, compared and checked many at once, and lists are searched by steps that
//! grow. What other modules call has the contract of a plain loop, but for `same_start`, and those of `windows` and
//! `words`.

pub(crate) mod comparison;
// Not in Rust, for less code: there, buffers copy by `buffer::copy_by_octet`.
// erase: omit
pub(crate) mod copies;
pub(crate) mod lanes;
pub(crate) mod slices;
pub(crate) mod steps;
pub(crate) mod windows;
pub(crate) mod words;

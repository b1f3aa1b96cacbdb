//! Tests over the public functions of `const_oid` and `examples`: what no clause and no row of `oid_rows` says.
#![tactic(auto)]

#[cfg(test)]
mod callers;
#[cfg(test)]
mod errors;
#[cfg(test)]
mod formatter;
#[cfg(test)]
mod from_arcs;
#[cfg(test)]
mod names;
#[cfg(test)]
mod octets;
#[cfg(test)]
mod order;
#[cfg(test)]
mod printing;
#[cfg(test)]
mod readable;
#[cfg(test)]
mod sorted_database;
#[cfg(test)]
mod traits;
#[cfg(test)]
mod vectors;
#[cfg(test)]
mod walk;

//! Tests of wires and of replicas, each by public calls.
//!
//! `wires` has the bytes of three wires, and `played` makes the patches of a board. `records` has what is written;
//! `fed` what comes of bytes in pieces, `chained` what a replica shows after each patch, `refused` which bytes are
//! refused where, `replica_text` the text of replicas, and `faults` the words of an error of texts. The bytes are
//! worked out by hand from the table of the grammar, and agree with those of another program.
#![tactic(auto)]

#[cfg(test)]
mod asserts;
#[cfg(test)]
mod chained;
#[cfg(test)]
mod faults;
#[cfg(test)]
mod fed;
#[cfg(test)]
mod played;
#[cfg(test)]
mod records;
#[cfg(test)]
mod refused;
#[cfg(test)]
mod replica_text;
#[cfg(test)]
mod wires;

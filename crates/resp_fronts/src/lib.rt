//! Definitions of what a prefix of a text contains and what may follow it, with laws over the
//! grammar's definitions.
//!
//! A *front* is such a prefix: the bytes received so far. It is *viable* if some encoding of a
//! value begins with it.
#![tactic(auto)]

pub mod laws;

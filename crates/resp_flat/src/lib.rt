//! Flat replies: the nodes of all complete plain replies in a buffer, in memory of the caller.
//!
//! [`read_in_place`] fills an array with the nodes of the replies. It copies no text and allocates
//! nothing: a node has the place of its text in the buffer. A node also has the number of the nodes of
//! its value, so the next sibling of a node is found by one addition.
//!
//! [`plain`] reads one reply without a scanner, and [`plain_end`] returns where it ends.
#![tactic(auto)]

mod heads;
mod in_place;
mod leaves;
mod node;
mod reading;

pub use in_place::{InPlace, InPlaceStop, read_in_place};
pub use node::{BOOL, INT, NULL, Node, OPEN, TEXT};
pub use reading::{Filled, Unread, plain, plain_end};

//! The scanner, the writer and the pairing for C: a static library whose functions are declared in
//! `include/resp.h`.
//!
//! The contracts of the scanner's functions restate those of the Rust scanner. The contracts of the
//! writing functions state which canonical text is in the caller's buffer. The contracts of the
//! pairing functions state which commands wait, in the terms of `resp_session`. No function
//! allocates from a heap.
//!
//! The caller has to keep these rules, which nothing checks. The memory of a scanner has
//! [`scanner::resp_scanner_size`] bytes at the alignment [`scanner::resp_scanner_align`] and is not
//! moved. [`scanner::resp_scanner_init`] was called before each other call and returned 0. Only one
//! call runs on a scanner at a time. Each pointer points to what its type says.
#![tactic(auto)]

mod answer;
pub mod command;
pub mod command_kind;
pub mod event;
pub mod laws;
mod lends;
pub mod limits;
pub mod memory;
mod number;
pub mod pairing;
pub mod release;
pub mod reply;
mod room;
pub mod scan;
pub mod scanner;
pub mod write;

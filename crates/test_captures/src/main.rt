//! Puts segments together in every order, and compares the bytes with the text from which the
//! segments were cut.
//!
//! Prints the number of orders, and the number of orders with other bytes, for segments without
//! gaps, for segments that overlap, and for segments of which one is missing. Then it writes a
//! conversation as a capture, reads it in pieces of several sizes, and prints the number of segments,
//! and the number of those that are not the written ones.
#![tactic(auto)]

mod orders;
mod records;
mod side;

use anyhow::Result;

fn main(rt: HostRuntime) -> Result<()> {
    let alloc = rt.alloc();
    let plain = orders::of_segments(alloc, &[(0, 3), (3, 4), (7, 1), (8, 5), (13, 3)], 16)?;
    println!(rt; "in a row: {} orders, {} wrong", plain.orders, plain.wrong)?;
    let overlapping = orders::of_segments(alloc, &[(0, 9), (4, 9), (2, 2), (9, 7), (0, 1)], 16)?;
    println!(rt;
        "overlapping: {} orders, {} wrong",
        overlapping.orders, overlapping.wrong
    )?;
    let missing = orders::of_segments(alloc, &[(0, 3), (5, 4), (9, 2), (11, 3), (14, 2)], 16)?;
    println!(rt;
        "two bytes missing: {} orders, {} wrong",
        missing.orders, missing.wrong
    )?;
    let full = side::fills(alloc)?;
    println!(rt; "bytes that wait at most: {full}")?;
    let are_right = records::bytes_are_right(alloc)?;
    println!(rt; "bytes of a record are right: {are_right}")?;
    for piece in [1usize, 7, 24, 4_096] {
        let read = records::are_read(alloc, piece)?;
        println!(rt;
            "written and read by {piece}: {} segments, {} wrong",
            read.segments, read.wrong
        )?;
    }
    Ok(())
}

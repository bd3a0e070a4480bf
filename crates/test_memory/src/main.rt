//! Makes each call that allocates once, which lets a test fail each allocation in turn.
//!
//! Before the parts it makes as many allocations as standard input has bytes. For each part it then
//! prints the name and `whole`; or `out of memory` if an allocation failed in the part and the
//! state is as promised after that; or `wrong`.
#![tactic(auto)]

mod asking;
mod board;
mod capturing;
mod cutting;
mod decoding;
mod encoding;
mod engines;
mod forwarding;
mod frames;
mod framing;
mod given;
mod hosting;
mod outcome;
mod pipelining;
mod proxying;
mod scheduling;
mod serving;
mod worlds;

use anyhow::Result;
use outcome::Outcome;
use std::alloc::{AllocError, Global};
use std::io::Read;

/// Returns the number of bytes of the input.
fn count_input(input: &mut impl Read) -> Result<usize> {
    let mut count: usize = 0;
    let mut piece = [0; 64];
    for _ in 0..u64::MAX {
        let read = input.read(&mut piece)?;
        if read == 0 {
            break;
        }
        count = count.saturating_add(read);
    }
    Ok(count)
}

/// Makes `count` allocations.
fn allocate(alloc: Global, count: usize) -> Result<(), AllocError> {
    for _ in 0..count {
        allocate_byte(alloc)?;
    }
    Ok(())
}

fn allocate_byte(alloc: Global) -> Result<(), AllocError> {
    let byte = Vec::from_slice(alloc, b"x")?;
    drop(byte);
    Ok(())
}

/// The name of a part with its outcome.
type Part = (&'static str, Outcome);

fn print(rt: &impl Print, parts: &[Part]) -> Result<()> {
    for (name, outcome) in parts {
        let word = outcome.word();
        println!(rt; "{name}: {word}")?;
    }
    Ok(())
}

/// Runs the parts of values, of the client and of the server, and returns their outcomes in order.
fn parts_of_values(alloc: Global) -> [Part; 27] {
    [
        ("decode a piece", decoding::of_one_piece(alloc)),
        ("decode bytes", decoding::of_single_bytes(alloc)),
        ("decode streamed", decoding::of_streamed_forms(alloc)),
        ("decode scalars", decoding::of_scalars(alloc)),
        ("decode heads", decoding::of_heads(alloc)),
        ("decode_all", decoding::of_all(alloc)),
        ("cut a piece", cutting::of_one_piece(alloc)),
        ("cut bytes", cutting::of_single_bytes(alloc)),
        ("try_clone", encoding::of_clone(alloc)),
        ("encode", encoding::of_value(alloc)),
        ("encode_push", encoding::of_push(alloc)),
        ("encode_words", encoding::of_words(alloc)),
        ("append", encoding::of_bulk(alloc)),
        ("encode_to", encoding::to_writer(alloc)),
        ("command", encoding::of_command(alloc)),
        ("send", pipelining::of_send(alloc)),
        ("hello", pipelining::of_hello(alloc)),
        ("client feed", pipelining::of_feed(alloc)),
        ("client feed_with", pipelining::of_feed_with(alloc)),
        ("client integer", pipelining::of_integer(alloc)),
        ("hub open", serving::of_open(alloc)),
        ("hub set", serving::of_set(alloc)),
        ("hub get", serving::of_get(alloc)),
        ("hub del", serving::of_del(alloc)),
        ("hub hello", serving::of_hello(alloc)),
        ("hub protocol error", serving::of_protocol_error(alloc)),
        ("hub push", serving::of_push(alloc)),
    ]
}

/// Runs the parts of the programs that serve or forward, and returns their outcomes in order.
fn parts_of_connections(alloc: Global) -> [Part; 41] {
    [
        ("databases new", hosting::of_new(alloc)),
        ("databases lines", hosting::of_lines(alloc)),
        ("databases arrays", hosting::of_arrays(alloc)),
        ("databases fault", hosting::of_fault(alloc)),
        ("ask", engines::of_ask(alloc)),
        ("serve", engines::of_serve(alloc)),
        ("words of a line", asking::of_line(alloc)),
        ("ask a command", asking::of_command(alloc)),
        ("schedule open", scheduling::of_open(alloc)),
        ("desk", board::of_desk(alloc)),
        ("own answer at a desk", board::of_own_desk(alloc)),
        ("queue of a line", board::of_queue(alloc)),
        ("queue release", board::of_queue_release(alloc)),
        ("board open", board::of_board_open(alloc)),
        ("board ask", board::of_board_ask(alloc)),
        ("board own", board::of_board_own(alloc)),
        ("board reply", board::of_board_reply(alloc)),
        ("board lose", board::of_board_lose(alloc)),
        ("board release", board::of_board_release(alloc)),
        ("frames", frames::of_next(alloc)),
        ("take reply", proxying::of_reply(alloc)),
        ("way", forwarding::of_way(alloc)),
        ("filtered tap", forwarding::of_filtered_tap(alloc)),
        ("tap of a long reply", forwarding::of_long_reply(alloc)),
        ("json tap", forwarding::of_json_tap(alloc)),
        ("counted tap", forwarding::of_counted_tap(alloc)),
        ("stream of a capture", capturing::of_stream(alloc)),
        ("capture", capturing::of_capture(alloc)),
        ("proxy open", proxying::of_open(alloc)),
        ("proxy client", proxying::of_client(alloc)),
        ("proxy lines", proxying::of_lines(alloc)),
        ("proxy leaving", proxying::of_leaving(alloc)),
        ("proxy moving", proxying::of_moving(alloc)),
        ("setting", proxying::of_setting(alloc)),
        ("opening", proxying::of_opening(alloc)),
        ("proxy server", proxying::of_server(alloc)),
        ("proxy probe", proxying::of_probe(alloc)),
        ("world", worlds::of_run(alloc)),
        ("framed values in", framing::of_values_in(alloc)),
        ("framed commands in", framing::of_commands_in(alloc)),
        ("framed replies out", framing::of_replies_out(alloc)),
    ]
}

fn main(rt: HostRuntime) -> Result<()> {
    let alloc = rt.alloc();
    allocate(alloc, count_input(&mut rt.stdin())?)?;
    print(&rt, &parts_of_values(alloc))?;
    print(&rt, &parts_of_connections(alloc))
}

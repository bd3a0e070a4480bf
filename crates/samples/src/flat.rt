//! Replies as flat nodes.

use anyhow::Result;
use resp_flat::{Node, read_in_place};
use resp_value::{Limits, Version};

pub(crate) fn run(rt: &impl Print) -> Result<()> {
    read_replies(rt)
}

fn read_replies(rt: &impl Print) -> Result<()> {
    let mut nodes = [Node::default(); 16];
    let buffer = b"*2\r\n:7\r\n$4\r\nhits\r\n+OK\r\n:1";
    let read = read_in_place(Version::Three, &Limits::standard(), buffer, &mut nodes);
    let mut at = 0;
    while at < read.nodes {
        println!(rt; "kind {}, size {}", nodes[at].kind, nodes[at].size)?;
        at += nodes[at].size;
    }
    println!(rt; "{} bytes used: {:?}", read.used, read.stop)?;
    Ok(())
}

//! Reads conversations as rows from the files `scan`, `decode`, `client`, `server`, `databases`, `wire`,
//! `tap`, `proxy` and `opening`, runs each with its texts cut in every way, and prints where the lines printed are not the
//! expected lines.
//!
//! Conversations are separated by empty lines. The first line of a conversation is its title, `#
//! what it shows`; further lines with `#` are comments. A row is the name of a call and, after a
//! space, the arguments of the call. The lines after a row that begin with `> ` are the lines that
//! it has to print. A row without such lines has to print nothing.
//!
//! A conversation is run with each received text in one piece, cut in two before each of its bytes,
//! and byte by byte with an empty piece between two bytes, on a new subject each time.
#![tactic(auto)]

mod bounds;
mod client;
mod conversation;
mod cut;
mod databases;
mod decode;
mod opening;
mod player;
mod proxy;
mod scan;
mod server;
mod spelling;
mod subject;
mod tap;
mod text;
mod wire;

use anyhow::Result;
use client::Talker;
use databases::Hosting;
use decode::Reader;
use opening::Arriving;
use player::play;
use proxy::Proxying;
use scan::Scanners;
use server::Serving;
use tap::Tapping;
use wire::Talk;

fn main(rt: HostRuntime) -> Result<()> {
    play::<Scanners>(&rt, "scan")?;
    play::<Reader>(&rt, "decode")?;
    play::<Talker>(&rt, "client")?;
    play::<Serving>(&rt, "server")?;
    play::<Hosting>(&rt, "databases")?;
    play::<Talk>(&rt, "wire")?;
    play::<Tapping>(&rt, "tap")?;
    play::<Proxying>(&rt, "proxy")?;
    play::<Arriving>(&rt, "opening")
}

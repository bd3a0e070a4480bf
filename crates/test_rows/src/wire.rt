//! Rows that run on clients, sessions and worlds, over devices in memory.

mod asking;
mod devices;
mod each;
mod link;
mod serving;
mod worlds;

use self::asking::Asking;
use self::devices::{Calls, Devices};
use self::each::End;
use self::worlds::Memory;
use crate::cut::Cut;
use crate::server::{TestHub, new_hub};
use crate::subject::Subject;
use anyhow::{Context, Result};
use resp_value::limits::Limits;
use resp_wire::Direction;
use std::alloc::Global;

/// The subject of a conversation: a client, a hub or a world, and the devices of the next call.
#[derive(Drop)]
pub(crate) struct Talk {
    alloc: Global,
    devices: Devices,
    /// The number of device calls in the last row.
    calls: Calls,
    asking: Asking,
    hub: TestHub,
    world: Option<Memory>,
}

impl Talk {
    /// Runs a row of the client.
    fn ask(&mut self, name: &str, given: &str, cut: Cut, said: &mut String) -> Result<()> {
        let (alloc, devices) = (self.alloc, self.devices);
        let asking = &mut self.asking;
        match name {
            "limits" => asking.renew(alloc, given),
            "queue" => asking.queue(alloc, given),
            "queue-hello" => asking.queue_hello(given),
            "waiting" => asking.say_waiting(said),
            "each-ask" => each::run(alloc, End::Client(asking), devices, given, said),
            _ => asking.ask(alloc, devices, given, cut, &mut self.calls, said),
        }
    }

    /// Runs a row of the hub.
    fn serve(&mut self, name: &str, given: &str, cut: Cut, said: &mut String) -> Result<()> {
        let (alloc, devices) = (self.alloc, self.devices);
        let hub = &mut self.hub;
        match name {
            "open" => serving::open(hub, said),
            "session" => serving::say_session(hub, given, said),
            "each-serve" => each::run(alloc, End::Server, devices, given, said),
            _ => serving::serve_session(alloc, devices, hub, given, cut, &mut self.calls, said),
        }
    }

    /// Runs a row of the world.
    fn happen(&mut self, name: &str, given: &str, said: &mut String) -> Result<()> {
        let world = self.world.as_mut().context("no world")?;
        worlds::run(self.alloc, world, name, given, said)
    }
}

impl Subject for Talk {
    fn new(alloc: Global) -> Result<Self> {
        Ok(Talk {
            alloc,
            devices: Devices::new(),
            calls: Calls::default(),
            asking: Asking::new(alloc),
            hub: new_hub(alloc, Limits::standard()),
            world: None,
        })
    }

    fn is_cut(name: &str) -> bool {
        name == "ask" || name == "serve" || name == "to-server" || name == "to-client"
    }

    fn run(&mut self, name: &str, given: &str, cut: Cut, said: &mut String) -> Result<()> {
        let alloc = self.alloc;
        match name {
            "devices" => self.devices.set_all(given),
            "calls" => self.calls.say(said),
            "limits" | "queue" | "queue-hello" | "waiting" | "each-ask" | "ask" => {
                self.ask(name, given, cut, said)
            }
            "open" | "session" | "each-serve" | "serve" => self.serve(name, given, cut, said),
            "to-server" => link::carry(alloc, Direction::ToServer, given, cut, said),
            "to-client" => link::carry(alloc, Direction::ToClient, given, cut, said),
            "world" => worlds::renew(alloc, &mut self.world, given),
            _ => self.happen(name, given, said),
        }
    }
}

//! Rows that run on a hub.

mod calls;
mod shows;

use crate::bounds;
use crate::cut::Cut;
use crate::subject::Subject;
use anyhow::{Result, bail};
use resp_server::Hub;
use resp_value::limits::Limits;
use std::alloc::Global;
use std::hash::{BuildHasherDefault, FoldHasher};

pub(crate) type TestHub = Hub<BuildHasherDefault<FoldHasher>>;

pub(crate) fn new_hub(alloc: Global, limits: Limits) -> TestHub {
    Hub::new(alloc, limits, BuildHasherDefault::new())
}

/// The hub of a conversation. It begins with the standard limits and without a session.
#[derive(Drop)]
pub(crate) struct Serving {
    alloc: Global,
    hub: TestHub,
}

impl Subject for Serving {
    fn new(alloc: Global) -> Result<Self> {
        let hub = new_hub(alloc, Limits::standard());
        Ok(Serving { alloc, hub })
    }

    fn is_cut(name: &str) -> bool {
        name == "bytes"
    }

    fn run(&mut self, name: &str, given: &str, cut: Cut, said: &mut String) -> Result<()> {
        let alloc = self.alloc;
        let hub = &mut self.hub;
        match name {
            "limits" => renew(alloc, hub, given),
            "open" => calls::open(hub, given, said),
            "bytes" => calls::bytes(alloc, hub, given, cut, said),
            "run" => calls::run(alloc, hub, given, said),
            "sent" => calls::sent(hub, given, said),
            "push" => calls::push(alloc, hub, given, said),
            "close" => calls::close(hub, given, said),
            "out" => shows::out(hub, given, said),
            "closing" => shows::closing(hub, given, said),
            "version" => shows::version(hub, given, said),
            "get" => shows::get(alloc, hub, given, said),
            "entries" => shows::entries(hub, said),
            _ => bail!("an unknown row"),
        }
    }
}

/// Replaces the hub with a new hub with these limits.
fn renew(alloc: Global, hub: &mut TestHub, limits: &str) -> Result<()> {
    *hub = new_hub(alloc, bounds::limits(limits)?);
    Ok(())
}

//! Scripts of `resp loop`. [`script::read_script`] reads a script, and [`play::play`] plays it with
//! a [`World`](resp_wire::world::World): several clients of one server.
#![tactic(auto)]

pub mod heard;
pub mod play;
pub mod script;

//! A proxy that shares connections to a server among many clients, over non-blocking sockets.
//!
//! A [`ProxyServer`] is a service of [`resp_net::Loop`]. It shares one connection to a server among
//! many clients, with [`resp_proxy::Proxy::visit_client`] and [`resp_proxy::Proxy::visit_server`].
#![tactic(auto)]

mod arrival;
mod channel;
mod input_end;
mod learner;
mod messages;
mod moving;
mod own;
mod plan;
mod proxied;
mod proxying;
mod pulse;
mod relay;
mod report;
mod server_link;
mod stalled;

pub use learner::{Learned, Learner};
pub use proxying::{ProxyServer, ProxySettings};

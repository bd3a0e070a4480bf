//! A connection to a server that clients share, without its socket.

ghost use Rattle.std.specs.Prelude.{◌≡◌, ◌↔◌, None, [], false, true, IfOk};
ghost use Rattle.resp_frames.specs.Framing.{HasBegun, IsReady, frame_rules};
ghost use Rattle.resp_proxy.specs.Opened.{hello_in, situation_in};
ghost use Rattle.resp_proxy.specs.ServerLines.{HasBegunBy, expected_of, has_doubles, hello_on, is_attached, line_of, line_terms, prober_of, reply_limits, reply_rules_of, route_to, situation_on, with_situation};
ghost use Rattle.resp_proxy.specs.Wishes.{MeansSame, situation_of};
ghost use Rattle.resp_value.specs.Rules.{Rules, rules_under};

use crate::latency::Waits;
use crate::opening::Opening;
use crate::probing::Prober;
use crate::route::Route;
use crate::setting::Setting;
use crate::settings::Settings;
use resp_board::{ClientId, LineId};
use resp_frames::{Begun, Frames};
use resp_value::version::Version;
use std::alloc::{AllocError, Global};
use std::marker::Model;

/// A connection to a server that the clients in one setting share: its line of the board, the
/// incomplete reply of the server, and the proxy's own probes.
///
/// It belongs to the proxy that opened it. When the connection is lost, the next one continues the
/// line.
#[derive(Drop)]
pub struct ServerLine {
    alloc: Global,
    pub(crate) id: LineId,
    /// The setting in which the commands on the line run.
    pub(crate) setting: Setting,
    /// Whether every client begins on this line.
    is_first: bool,
    /// Whether a connection to the server continues the line.
    pub(crate) is_attached: bool,
    /// The reply of the server to HELLO over the last connection, or empty.
    pub(crate) hello: Vec<u8>,
    /// Finds the replies of the server.
    pub(crate) replies: Frames,
    /// The incomplete reply of the server.
    pub(crate) begun: Begun,
    pub(crate) prober: Prober,
    /// Since when commands wait for replies.
    pub(crate) waits: Waits,
}

impl Model for ServerLine {
    ghost use Rattle.resp_frames.specs.Framing.{HasBegun, IsReady, frame_rules};
    ghost use Rattle.resp_proxy.specs.ServerLines.{Lined};
    ghost use Rattle.resp_proxy.specs.Wishes.{situation_of};

    ghost Value = { Lined };

    ghost view = { λ l. record {
      terms = record {
        id = l.id;
        situation = situation_of l.setting;
        is_first = l.is_first;
        rules = frame_rules l.replies;
      };
      attached = l.is_attached;
      hello = l.hello.items;
      begun = l.begun;
      prober = l.prober.who;
      expected = l.prober.expected.items;
    } };

    ghost invariant = { λ l. IsReady l.replies };
}

impl ServerLine {
    /// Returns the state of a line for a setting, before its first connection. It has no prober.
    pub(crate) fn new(alloc: Global, id: LineId, replies: Frames, setting: Setting) -> ServerLine
        requires { IsReady replies }
        ensures line { line_of result ≡ id.place }
        ensures setting { situation_on result ≡ situation_of setting }
        ensures begun { HasBegunBy result [] }
        ensures detached { is_attached result ≡ false }
        ensures nobody { prober_of result ≡ None }
        ensures expected { expected_of result ≡ [] }
        ensures rules { reply_rules_of result ≡ frame_rules replies }
    {
        let is_first = setting.is_first();
        ServerLine {
            alloc,
            id,
            setting,
            is_first,
            is_attached: false,
            hello: Vec::new(alloc),
            replies,
            begun: Begun::new(),
            prober: Prober::none(alloc),
            waits: Waits::new(alloc),
        }
    }

    /// Returns the setting in which the commands on the line run.
    pub fn setting(&self) -> &Setting
        ensures { situation_of result.now ≡ situation_on self.now }
    {
        &self.setting
    }

    /// Uses this setting for the next connection if it differs at most in its password. Otherwise
    /// nothing changes.
    pub fn set_setting(&mut self, setting: Setting)
        ensures set { MeansSame (situation_of setting) (situation_on self.old) →
            line_terms self.new ≡ with_situation (situation_of setting) (line_terms self.old) }
        ensures other { (MeansSame (situation_of setting) (situation_on self.old) → ⊥) →
            self.new ≡ self.old }
    {
        if setting.is_same(&self.setting) {
            self.setting = setting;
        }
    }

    /// Returns whether a connection to the server continues the line.
    pub fn is_attached(&self) -> bool
        ensures { result ≡ is_attached self.now }
    {
        self.is_attached
    }

    /// Returns the reply of the server to HELLO over the last connection, or an empty text.
    pub fn hello(&self) -> &[u8]
        ensures { result.now ≡ hello_on self.now }
    {
        &self.hello
    }

    /// Returns where the commands of a client on this line go.
    pub(crate) fn route(&self, client: ClientId) -> Route
        ensures { result ≡ route_to self.now client }
    {
        Route {
            client,
            line: self.id,
            version: self.setting.version,
            is_first: self.is_first,
        }
    }

    /// Returns whether [`Proxy::open_prober`](crate::Proxy::open_prober) was called for this line.
    pub fn has_prober(&self) -> bool
        ensures { (result ≡ false) ↔ (prober_of self.now ≡ None) }
    {
        self.prober.who.is_some()
    }

    /// Returns whether this is the proxy's own client that sends probes over this line.
    pub fn is_prober(&self, who: ClientId) -> bool {
        self.prober.who == Some(who)
    }

    /// Lets a connection that was brought into a setting continue the line.
    pub(crate) fn continue_over(&mut self, opening: Opening)
        ensures attached { is_attached self.new ≡ true }
        ensures begun { HasBegunBy self.new [] }
        ensures hello { hello_on self.new ≡ hello_in opening }
        ensures setting { line_terms self.new ≡
            with_situation (situation_in opening) (line_terms self.old) }
        ensures same_prober { prober_of self.new ≡ prober_of self.old }
        ensures same_expected { expected_of self.new ≡ expected_of self.old }
    {
        let (setting, hello) = opening.into_parts();
        self.setting = setting;
        self.hello = hello;
        self.is_attached = true;
        self.begun = Begun::new();
    }

    /// Uses the line in another setting, before its first connection.
    pub(crate) fn renew(&mut self, replies: Frames, setting: Setting)
        requires { IsReady replies }
        ensures setting { situation_on self.new ≡ situation_of setting }
        ensures begun { HasBegunBy self.new [] }
        ensures detached { is_attached self.new ≡ false }
        ensures same_line { line_of self.new ≡ line_of self.old }
        ensures rules { reply_rules_of self.new ≡ frame_rules replies }
        ensures same_prober { prober_of self.new ≡ prober_of self.old }
        ensures same_expected { expected_of self.new ≡ expected_of self.old }
    {
        self.is_first = setting.is_first();
        self.setting = setting;
        self.is_attached = false;
        self.hello = Vec::new(self.alloc);
        self.replies = replies;
        self.begun = Begun::new();
    }
}

/// Forgets the bytes of the incomplete reply.
pub(crate) fn forget(begun: &mut Begun)
    ensures { (rules : Rules) → HasBegun rules begun.new [] }
{
    *begun = Begun::new();
}

/// Returns what finds the replies over a line in this version.
///
/// # Errors
///
/// `AllocError` if an allocation fails.
pub(crate) fn reply_frames(
    alloc: Global,
    settings: &Settings,
    version: Version,
) -> Result<Frames, AllocError>
    ensures ready { IfOk result IsReady }
    ensures rules { IfOk result (λ frames.
        frame_rules frames ≡ rules_under version (reply_limits settings.now version)) }
{
    let limits = settings.limits.with_doubles(has_doubles(version));
    Frames::new(alloc, version, &limits)
}

/// Returns whether replies of this version may have doubles.
fn has_doubles(version: Version) -> bool
    ensures { result ≡ has_doubles version }
{
    match version {
        Version::Two => false,
        Version::Three => true,
    }
}

//! Which bytes of a client are commands, and which commands are sent.

ghost use Rattle.std.specs.Prelude.{◌≡◌, List, ℕ, None, false, true, IfOk, IsTrue, OnErr, OnOk};
ghost use Rattle.resp_frames.specs.Commands.{TellsWords};
ghost use Rattle.resp_frames.specs.Framing.{IsReady};
ghost use Rattle.resp_frames.specs.Texts.{text_of};
ghost use Rattle.resp_proxy.specs.Leaving.{IsForOwn};
ghost use Rattle.resp_proxy.specs.OwnReplies.{Stays};
ghost use Rattle.resp_proxy.specs.Taking.{AdmitsText};
ghost use Rattle.resp_proxy.specs.Terms.{IsAmong, with_admitted};
ghost use Rattle.resp_proxy.specs.Unfinished.{terms_by, terms_of};
ghost use Rattle.resp_value.specs.Words.{texts_of};

use crate::reaction::needs_own;
use crate::route::Route;
use crate::settings::Settings;
use resp_commands::entry;
use resp_frames::{CommandFrame, Frames};
use resp_scan::whole;
use resp_value::laws::no_spelling_begins_another;
use resp_value::version::Version;
use std::alloc::{AllocError, Global};

/// The commands of all clients.
#[derive(Drop)]
pub(crate) struct Intake {
    /// Finds the ends of arrays.
    pub(crate) frames: Frames,
    /// Whether a line is a command too.
    pub(crate) lines: bool,
    /// The names of commands that are sent although the table does not have them.
    pub(crate) admitted: Vec<Vec<u8>>,
    /// Whether the proxy itself replies to PING.
    pub(crate) local_ping: bool,
    /// Whether a client may get a connection of its own.
    pub(crate) admits_own: bool,
}

impl Intake {
    /// Returns the intake of a proxy with these settings, which admits no command that the table
    /// does not have.
    pub(crate) fn new(alloc: Global, settings: &Settings) -> Result<Intake, AllocError>
        ensures ready { IfOk result (λ intake. IsReady intake.frames) }
        ensures terms { IfOk result (λ intake. terms_of intake ≡ terms_by settings.now) }
    {
        Ok(Intake {
            frames: Frames::new(alloc, Version::Two, &settings.limits)?,
            lines: settings.lines,
            admitted: Vec::new(alloc),
            local_ping: settings.local_ping,
            admits_own: false,
        })
    }

    /// Admits a command of this name.
    pub(crate) fn admit(&mut self, alloc: Global, name: &[u8]) -> Result<(), AllocError>
        ensures admitted { OnOk result (terms_of self.new ≡
            with_admitted name.now (terms_of self.old)) }
        ensures unchanged { OnErr result (terms_of self.new ≡ terms_of self.old) }
        ensures same_frames { self.new.frames ≡ self.old.frames }
        ensures same_own { self.new.admits_own ≡ self.old.admits_own }
    {
        let copy = name.to_vec(alloc)?;
        match self.admitted.push(copy) {
            Ok(()) => Ok(()),
            Err(_) => Err(AllocError),
        }
    }

    /// Returns whether a command of a client on this route needs a dedicated connection, and the client
    /// may get one.
    pub(crate) fn sets_aside(&self, route: Route, command: &CommandFrame) -> bool
        ensures admitted { IsTrue result → self.now.admits_own ≡ true }
        ensures needed { IsTrue result → IsForOwn command.now.words.class }
        ensures stays { (words : TellsWords (terms_of self.now).rules.limits
            (text_of command.now.frame) command.now.words) → result ≡ false →
            Stays (terms_of self.now) route command.now.words.class words.name words.arguments }
    {
        self.admits_own && needs_own(&self.frames, route.is_first, command)
    }

    /// Returns whether a command that the table does not have is sent: it is one of the admitted
    /// commands, in upper, lower or mixed case.
    pub(crate) fn admits(&self, command: &CommandFrame) -> bool
        ensures admitted { IsTrue result → AdmitsText (terms_of self.now) (text_of command.now.frame) }
        ensures all { command.now.words.class ≡ None →
            AdmitsText (terms_of self.now) (text_of command.now.frame) → IsTrue result }
    {
        no_spelling_begins_another();
        if command.words.class.is_some() {
            return false;
        }
        let Some(words) = whole::command(command.frame.text(), &self.frames.limits()) else {
            return false;
        };
        match entry(words.name) {
            Some(_) => false,
            None => is_among(&self.admitted, words.name),
        }
    }
}

/// Returns whether a name is one of these, in upper, lower or mixed case.
fn is_among(names: &[Vec<u8>], name: &[u8]) -> bool
    ensures among { IsTrue result → IsAmong (texts_of names.now) name.now }
    ensures all { IsAmong (texts_of names.now) name.now → IsTrue result }
{
    for other in names {
        if other.as_slice().eq_ignore_ascii_case(name) {
            return true;
        }
    }
    false
}

//! Which commands, replies and other lines are printed.

ghost use Rattle.std.specs.Prelude.{◌≡◌, [], None, false};
ghost use Rattle.std.specs.List.{list_any};
ghost use Rattle.resp_tap.specs.Filters.{Chooses, has_no_name, is_by_reply, is_late, is_selective, kept_by, keeps, keeps_all, keeps_answer, keeps_client, keeps_connected, keeps_end, keeps_ends, keeps_gone, keeps_loose, keeps_name, keeps_seen, longest_name, same_name};
ghost use Rattle.resp_tap.specs.Parts.{IsEnough};

use crate::end::Cut;
use crate::keys::{has_key, name_in};
use crate::line::is_refusal;
use crate::seen::Seen;
use crate::shown_part::ShownPart;
use resp_session::words::Words;
use std::alloc::Global;

/// Decides which commands, replies and other lines are printed. A command is printed if it passes
/// all parts of the filter. All traffic is read and forwarded in any case.
///
/// # Examples
///
/// From [samples](../../samples/src/tapping.rt):
///
/// ```rust
/// let mut filter = Filter::all(alloc);
/// filter.errors = true;
/// println!(rt; "{}", filter.is_by_reply())?;
/// ```
///
/// This prints `true`.
#[derive(Clone, Debug, Drop)]
pub struct Filter {
    /// Whether a command is printed only if its reply is an error.
    pub errors: bool,
    /// If set, only commands that wait for more microseconds than this are printed.
    pub slower: Option<u64>,
    /// The names of the printed commands, in upper, lower or mixed case. If it is empty, commands
    /// of all names are printed.
    pub names: Vec<Vec<u8>>,
    /// If set, only commands with a key that matches this glob are printed.
    pub key: Option<Vec<u8>>,
    /// If set, only the lines of this client are printed.
    pub client: Option<u64>,
    /// Whether all lines about connections are printed, regardless of the other fields except
    /// `client`.
    pub connections: bool,
}

/// Returns whether a delay is greater than `least`, or all delays are let through.
fn is_late(least: Option<u64>, waited: Option<u64>) -> bool
    ensures { result ≡ is_late least waited }
{
    match (least, waited) {
        (None, _) => true,
        (Some(_), None) => false,
        (Some(least), Some(waited)) => least < waited,
    }
}

/// Returns whether these are the same name, in upper, lower or mixed case.
fn same_name(name: &[u8], other: &[u8]) -> bool
    ensures { result ≡ same_name name.now other.now }
{
    name.eq_ignore_ascii_case(other)
}

/// Returns whether this name is among the names, in upper, lower or mixed case.
fn is_among(names: &[Vec<u8>], name: &[u8]) -> bool
    ensures { result ≡ list_any (λ other. same_name name.now other.items) names.now }
{
    let mut index = 0;
    while index < names.len() {
        if same_name(name, names[index].as_slice()) {
            return true;
        }
        index += 1;
    }
    false
}

/// Returns the number of bytes of the longest of these names.
fn longest_name(names: &[Vec<u8>]) -> usize
    ensures { result ≡ longest_name names.now }
{
    let mut longest = 0;
    let mut index = 0;
    while index < names.len() {
        longest = names[index].len().max(longest);
        index += 1;
    }
    longest
}

impl Filter {
    /// Returns a filter that lets everything through. It allocates nothing.
    pub fn all(alloc: Global) -> Filter
        ensures errors { result.errors ≡ false }
        ensures slower { result.slower ≡ None }
        ensures names { result.names.items ≡ [] }
        ensures key { result.key ≡ None }
        ensures client { result.client ≡ None }
        ensures connections { result.connections ≡ false }
    {
        Filter {
            errors: false,
            slower: None,
            names: Vec::new(alloc),
            key: None,
            client: None,
            connections: false,
        }
    }

    /// Returns the part of each word of a command that is kept, if this part of each text is shown.
    /// It is enough to decide whether the filter lets the command through.
    pub(crate) fn kept_part(&self, shown: ShownPart) -> ShownPart
        ensures kept { result.most ≡ kept_by self.now shown.most }
        ensures enough { IsEnough shown.most result.most }
    {
        if self.key.is_some() {
            return ShownPart::all();
        }
        shown.of_words(longest_name(self.names.as_slice()))
    }

    /// Returns whether the lines about a client are printed.
    pub fn keeps_client(&self, client: u64) -> bool
        ensures { result ≡ keeps_client self.now client }
    {
        self.client.map_or(true, |number| number == client)
    }

    /// Returns whether a command is printed only with its reply, because the reply decides.
    pub fn is_by_reply(&self) -> bool
        ensures { result ≡ is_by_reply self.now }
    {
        self.errors || self.slower.is_some()
    }

    /// Returns whether commands of all names are printed.
    fn has_no_name(&self) -> bool
        ensures { result ≡ has_no_name self.now }
    {
        self.names.is_empty()
    }

    /// Returns whether commands of all names and all keys are printed.
    pub fn keeps_all(&self) -> bool
        ensures { result ≡ keeps_all self.now }
    {
        self.has_no_name() && self.key.is_none()
    }

    /// Returns whether commands with these words are printed, judging by their name.
    fn keeps_name(&self, words: &Words) -> bool
        ensures { result ≡ keeps_name self.now words.now }
    {
        self.has_no_name() || is_among(self.names.as_slice(), name_in(words))
    }

    /// Returns whether commands with these words are printed, judging by their name and their keys.
    pub fn keeps_words(&self, words: &Words) -> bool
        ensures { Chooses self.now words.now result }
    {
        if !self.keeps_name(words) {
            return false;
        }
        match &self.key {
            Some(glob) => has_key(words, glob.as_slice()),
            None => true,
        }
    }

    /// Returns whether a reply that arrived after this delay is printed.
    pub(crate) fn keeps_answer(&self, is_error: bool, waited: Option<u64>) -> bool
        ensures { result ≡ keeps_answer self.now is_error waited }
    {
        (!self.errors || is_error) && is_late(self.slower, waited)
    }

    /// Returns whether a value that belongs to no command is printed.
    fn keeps_loose(&self, is_error: bool) -> bool
        ensures { result ≡ keeps_loose self.now is_error }
    {
        self.keeps_all() && self.keeps_answer(is_error, None)
    }

    /// Returns whether a result is printed, if the lines about its client are.
    fn keeps_seen(&self, is_chosen: bool, waited: Option<u64>, seen: &Seen) -> bool
        ensures { result ≡ keeps_seen self.now is_chosen waited seen.now }
    {
        match seen {
            Seen::Nothing | Seen::Passed => false,
            Seen::Command { .. } => !self.is_by_reply() && is_chosen,
            Seen::Reply { value, .. } => is_chosen
                && self.keeps_answer(is_refusal(&value.value), waited),
            Seen::Push { .. } => self.keeps_loose(false),
            Seen::Value(value) => self.keeps_loose(is_refusal(&value.value)),
            Seen::NotCommand { .. } | Seen::Refused { .. } => true,
        }
    }

    /// Returns whether a result of this client is printed. `is_chosen` says whether the words of
    /// the command, or of the command of a reply, pass the filter. `waited` is how many
    /// microseconds the command waited.
    pub fn keeps(&self, client: u64, is_chosen: bool, waited: Option<u64>, seen: &Seen) -> bool
        ensures { result ≡ keeps self.now client is_chosen waited seen.now }
    {
        self.keeps_client(client) && self.keeps_seen(is_chosen, waited, seen)
    }

    /// Returns whether only some commands are printed.
    pub fn is_selective(&self) -> bool
        ensures { result ≡ is_selective self.now }
    {
        self.is_by_reply() || !self.keeps_all()
    }

    /// Returns whether the line with the address of a connected client is printed.
    pub fn keeps_connected(&self, client: u64) -> bool
        ensures { result ≡ keeps_connected self.now client }
    {
        self.keeps_client(client) && self.connections
    }

    /// Returns whether lines about connections are printed even if no command is cut off.
    fn keeps_ends(&self) -> bool
        ensures { result ≡ keeps_ends self.now }
    {
        self.connections || !self.is_selective()
    }

    /// Returns whether the line that says that a client's connection is gone is printed. If only
    /// some commands are printed, this line is printed only with `connections`.
    pub fn keeps_gone(&self, client: u64) -> bool
        ensures { result ≡ keeps_gone self.now client }
    {
        self.keeps_client(client) && self.keeps_ends()
    }

    /// Returns whether to print the line about the side of a client's connection that has closed.
    /// `cut` is the incomplete command or reply of that side. If only some commands are printed, a
    /// line without an incomplete command or reply is printed only with `connections`.
    pub fn keeps_end(&self, client: u64, cut: Option<Cut>) -> bool
        ensures { result ≡ keeps_end self.now client cut }
    {
        self.keeps_client(client) && (cut.is_some() || self.keeps_ends())
    }
}

//! The secret words of commands, such as passwords.

ghost use Rattle.std.specs.Prelude.{◌≡◌, ℕ, ◌-◌, List, length, max};
ghost use Rattle.std.specs.List.{list_any};
ghost use Rattle.resp_session.specs.Operations.{is_name};
ghost use Rattle.resp_tap.specs.Secrets.{AreLeft, is_secret_after, secret_settings, secrets_after, secrets_of};

use crate::kind::has_subcommand;
use resp_session::names::is_name;
use resp_session::words::Words;

/// Which words of a command are secret.
#[derive(Clone, Copy, Debug, PartialEq, Eq)]
pub enum Secrets {
    /// No word is secret.
    Absent,
    /// The words from this index on are secret: those of AUTH after its name, and those of ACL
    /// SETUSER.
    From(usize),
    /// The two words after AUTH are secret.
    OfHello,
    /// The word after AUTH and the two words after AUTH2 are secret.
    OfMigrate,
    /// The word after the name of a secret setting is secret, in CONFIG SET, SENTINEL SET and
    /// SENTINEL CONFIG SET.
    OfSettings,
}

/// Returns whether this is the name of a setting that is secret.
fn is_secret_setting(word: &[u8]) -> bool
    ensures { result ≡ list_any (λ name. is_name name word.now) secret_settings }
{
    is_name(word, b"requirepass")
        || is_name(word, b"masterauth")
        || is_name(word, b"masteruser")
        || is_name(word, b"primaryauth")
        || is_name(word, b"primaryuser")
        || is_name(word, b"tls-key-file-pass")
        || is_name(word, b"tls-client-key-file-pass")
        || is_name(word, b"auth-pass")
        || is_name(word, b"auth-user")
        || is_name(word, b"sentinel-pass")
        || is_name(word, b"sentinel-user")
}

impl Secrets {
    /// Returns the secret words of a command. Its first word is its name.
    pub fn of(words: &Words) -> Secrets
        ensures { result ≡ secrets_of words.now }
    {
        if words.len() == 0 {
            return Secrets::Absent;
        }
        let name = words.word(0);
        if is_name(name, b"auth") {
            Secrets::From(1)
        } else if is_name(name, b"hello") {
            Secrets::OfHello
        } else if is_name(name, b"migrate") {
            Secrets::OfMigrate
        } else if is_name(name, b"sentinel") {
            Secrets::OfSettings
        } else if is_name(name, b"acl") && has_subcommand(words, b"setuser") {
            Secrets::From(2)
        } else if is_name(name, b"config") && has_subcommand(words, b"set") {
            Secrets::OfSettings
        } else {
            Secrets::Absent
        }
    }

    /// Returns how many of the words that follow this word are secret because of it.
    pub(crate) fn after(self, word: &[u8]) -> usize
        ensures { result ≡ secrets_after self word.now }
    {
        match self {
            Secrets::Absent | Secrets::From(_) => 0,
            Secrets::OfHello if is_name(word, b"auth") => 2,
            Secrets::OfHello => 0,
            Secrets::OfMigrate if is_name(word, b"auth") => 1,
            Secrets::OfMigrate if is_name(word, b"auth2") => 2,
            Secrets::OfMigrate => 0,
            Secrets::OfSettings if is_secret_setting(word) => 1,
            Secrets::OfSettings => 0,
        }
    }

    /// Returns whether the word at this index is secret. `left` is the number of words from this
    /// one on that are secret because of a word before it.
    pub(crate) fn hides(self, index: usize, left: usize) -> bool
        ensures { (before : List (List ℕ)) → length before ≡ index → AreLeft self before left →
            result ≡ is_secret_after self before }
    {
        match self {
            Secrets::From(first) => first <= index,
            _ => left > 0,
        }
    }

    /// Returns how many words after `word` are secret because of it or a word before it. `left` is
    /// that number before it.
    pub(crate) fn left_after(self, left: usize, word: &[u8]) -> usize
        ensures { result ≡ max (secrets_after self word.now) (left - 1) }
    {
        self.after(word).max(left.saturating_sub(1))
    }
}

//! The settings in which commands of clients run.

ghost use Rattle.std.specs.Prelude.{◌≡◌, ◌↔◌, ◌++◌, ◌≤◌, codes, Some, IsTrue, IfNone, IfOk, IfSome, OnOk};
ghost use Rattle.std.specs.Option.{option_map};
ghost use Rattle.resp_proxy.specs.Openings.{auth_text, commands_in, hello_text, login_text, opening_count, opening_text, select_text};
ghost use Rattle.resp_proxy.specs.Wishes.{account_kept, account_lent, after_asking, asked_in, first_situation, situation_of, user_of, MeansSame, with_database, with_hello};
ghost use Rattle.resp_value.specs.Canonical.{canonical_text};
ghost use Rattle.resp_value.specs.Numbers.{decimal};
ghost use Rattle.resp_value.specs.Words.{word_datum};

use crate::wish::{Account, Wish};
use resp_value::version::Version;
use std::alloc::{AllocError, Global};

/// The name of the user of AUTH without a name.
const DEFAULT: &[u8] = b"default";

/// The maximum number of bytes of a word in a log.
const SHOWN: usize = 64;

/// The version, the database and the user in which commands run.
#[derive(Drop)]
pub struct Setting {
    /// The version of the replies.
    pub version: Version,
    /// The word of SELECT for the database.
    pub database: Vec<u8>,
    /// The user, or `None` for the proxy's own user.
    pub login: Option<Login>,
}

/// A user and its password. The password is never printed.
#[derive(Drop)]
pub struct Login {
    pub(crate) user: Option<Vec<u8>>,
    pub(crate) password: Vec<u8>,
}

impl Setting {
    /// Returns the setting in which every client begins: version 2, database 0, and the proxy's own
    /// user.
    ///
    /// # Errors
    ///
    /// `AllocError` if an allocation fails.
    pub fn first(alloc: Global) -> Result<Setting, AllocError>
        ensures { IfOk result (λ setting. situation_of setting ≡ first_situation) }
    {
        Ok(Setting {
            version: Version::Two,
            database: b"0".to_vec(alloc)?,
            login: None,
        })
    }

    /// Returns the setting after a command that asks for this, or `None` if the command does not name a setting.
    ///
    /// # Errors
    ///
    /// `AllocError` if an allocation fails.
    pub fn after(&self, alloc: Global, wish: Wish<'_>) -> Result<Option<Setting>, AllocError>
        ensures { IfOk result (λ setting.
            option_map situation_of setting ≡ after_asking (asked_in wish.entry) (situation_of self.now)) }
    {
        match wish {
            Wish::Hello(version, account, _) => {
                let version = version.unwrap_or(self.version);
                self.after_hello(alloc, version, account)
            }
            Wish::Auth(account) => self.after_hello(alloc, self.version, Some(account)),
            Wish::Select(word) => self.after_select(alloc, word),
            Wish::Reset => Ok(Some(Setting::first(alloc)?)),
            Wish::Unclear | Wish::Other => Ok(None),
        }
    }

    /// Returns the setting in this version and with this user, if one is given.
    fn after_hello(
        &self,
        alloc: Global,
        version: Version,
        account: Option<Account<'_>>,
    ) -> Result<Option<Setting>, AllocError>
        ensures { IfOk result (λ setting. option_map situation_of setting ≡
            Some (with_hello version (option_map account_lent account.entry)
            (situation_of self.now))) }
    {
        let login = match account {
            Some(account) => Some(login_of(alloc, account)?),
            None => copy_of(alloc, &self.login)?,
        };
        Ok(Some(Setting {
            version,
            database: self.database.to_vec(alloc)?,
            login,
        }))
    }

    /// Returns the setting in the database of this word.
    fn after_select(&self, alloc: Global, word: &[u8]) -> Result<Option<Setting>, AllocError>
        ensures { IfOk result (λ setting. option_map situation_of setting ≡
            Some (with_database word.now (situation_of self.now))) }
    {
        Ok(Some(Setting {
            version: self.version,
            database: word.to_vec(alloc)?,
            login: copy_of(alloc, &self.login)?,
        }))
    }

    /// Returns a copy of the setting.
    ///
    /// # Errors
    ///
    /// `AllocError` if an allocation fails.
    pub fn copy(&self, alloc: Global) -> Result<Setting, AllocError>
        ensures { IfOk result (λ setting. situation_of setting ≡ situation_of self.now) }
    {
        Ok(Setting {
            version: self.version,
            database: self.database.to_vec(alloc)?,
            login: copy_of(alloc, &self.login)?,
        })
    }

    /// Returns whether commands in both settings mean the same: the version, the database and the
    /// name of the user are the same. The passwords may differ.
    pub fn is_same(&self, other: &Setting) -> bool
        ensures { IsTrue result ↔ MeansSame (situation_of self.now) (situation_of other.now) }
    {
        self.version == other.version
            && self.database.as_slice() == other.database.as_slice()
            && name_of(&self.login) == name_of(&other.login)
    }

    /// Returns whether this is the setting in which every client begins.
    pub fn is_first(&self) -> bool
        ensures { IsTrue result ↔ MeansSame (situation_of self.now) first_situation }
    {
        self.version == Version::Two
            && self.database.as_slice() == b"0".as_slice()
            && self.login.is_none()
    }

    /// Appends the commands that a new connection to the server begins with, and returns their
    /// number. `own` is the command AUTH of the proxy's own user, or empty.
    ///
    /// # Errors
    ///
    /// `AllocError` if an allocation fails. The first bytes of the commands may be appended.
    pub fn commands(&self, own: &[u8], out: &mut Vec<u8>) -> Result<u8, AllocError>
        // AUTH of the user, HELLO with version 3, and SELECT of the database, each if it is needed.
        ensures appended { OnOk result (out.new.items ≡
            out.old.items ++ opening_text own.now (situation_of self.now)) }
        ensures count { IfOk result (λ count.
            count ≡ opening_count own.now (situation_of self.now)) }
    {
        let logins = log_in(&self.login, own, out)?;
        let greetings = greet(self.version, out)?;
        let selections = select(&self.database, out)?;
        Ok(logins + greetings + selections)
    }

    /// Returns the setting as a text without its password, such as `version 3, database 2, user
    /// alice`. The proxy's own user is not named.
    ///
    /// # Errors
    ///
    /// `AllocError` if an allocation fails.
    pub fn shown(&self, alloc: Global) -> Result<String, AllocError> {
        let version = match self.version {
            Version::Two => 2,
            Version::Three => 3,
        };
        let database = self.database[..self.database.len().min(SHOWN)].escape_ascii();
        match name_of(&self.login) {
            None => format!(in alloc; "version {version}, database {database}"),
            Some(user) => {
                let user = user[..user.len().min(SHOWN)].escape_ascii();
                format!(in alloc; "version {version}, database {database}, user {user}")
            }
        }
    }
}

/// Appends the command AUTH of a user, or of the proxy's own user, and returns the number of commands.
fn log_in(login: &Option<Login>, own: &[u8], out: &mut Vec<u8>) -> Result<u8, AllocError>
    ensures appended { OnOk result (out.new.items ≡
        out.old.items ++ login_text own.now (option_map account_kept login.now)) }
    ensures count { IfOk result (λ count.
        count ≡ commands_in (login_text own.now (option_map account_kept login.now))) }
    ensures few { IfOk result (λ count. count ≤ 1) }
{
    match login {
        Some(login) => {
            authenticate(login, out)?;
            Ok(1)
        }
        None if own.is_empty() => Ok(0),
        None => {
            out.extend_from_slice(own)?;
            Ok(1)
        }
    }
}

/// Appends the command AUTH of a user.
fn authenticate(login: &Login, out: &mut Vec<u8>) -> Result<(), AllocError>
    ensures { OnOk result (out.new.items ≡ out.old.items ++ auth_text (account_kept login.now)) }
{
    match &login.user {
        Some(user) => {
            out.extend_from_slice(b"*3\r\n$4\r\nAUTH\r\n")?;
            bulk(user, out)?;
            bulk(&login.password, out)?;
            Ok(())
        }
        None => {
            out.extend_from_slice(b"*2\r\n$4\r\nAUTH\r\n")?;
            bulk(&login.password, out)?;
            Ok(())
        }
    }
}

/// Appends HELLO with version 3, if that is the version, and returns the number of commands.
fn greet(version: Version, out: &mut Vec<u8>) -> Result<u8, AllocError>
    ensures appended { OnOk result (out.new.items ≡ out.old.items ++ hello_text version) }
    ensures count { IfOk result (λ count. count ≡ commands_in (hello_text version)) }
    ensures few { IfOk result (λ count. count ≤ 1) }
{
    match version {
        Version::Two => Ok(0),
        Version::Three => {
            out.extend_from_slice(b"*2\r\n$5\r\nHELLO\r\n$1\r\n3\r\n")?;
            Ok(1)
        }
    }
}

/// Appends SELECT of a database, unless it is the first, and returns the number of commands.
fn select(database: &[u8], out: &mut Vec<u8>) -> Result<u8, AllocError>
    ensures appended { OnOk result (out.new.items ≡ out.old.items ++ select_text database.now) }
    ensures count { IfOk result (λ count. count ≡ commands_in (select_text database.now)) }
    ensures few { IfOk result (λ count. count ≤ 1) }
{
    if database == b"0".as_slice() {
        return Ok(0);
    }
    out.extend_from_slice(b"*2\r\n$6\r\nSELECT\r\n")?;
    bulk(database, out)?;
    Ok(1)
}

/// Returns the name of a user, or `None` for the proxy's own user.
fn name_of(login: &Option<Login>) -> Option<&[u8]>
    ensures { option_map (λ name. name.now) result ≡ user_of (option_map account_kept login.now) }
{
    match login {
        None => None,
        Some(Login { user: None, .. }) => Some(DEFAULT),
        Some(
            Login {
                user: Some(user),
                ..
            },
        ) => Some(user.as_slice()),
    }
}

/// Returns a copy of a user and its password.
fn login_of(alloc: Global, account: Account<'_>) -> Result<Login, AllocError>
    ensures { IfOk result (λ login. account_kept login ≡ account_lent account.entry) }
{
    let user = match account.user {
        Some(user) => Some(user.to_vec(alloc)?),
        None => None,
    };
    Ok(Login {
        user,
        password: account.password.to_vec(alloc)?,
    })
}

/// Returns a copy of a user and its password, if there are some.
fn copy_of(alloc: Global, login: &Option<Login>) -> Result<Option<Login>, AllocError>
    ensures { IfOk result (λ copy.
        option_map account_kept copy ≡ option_map account_kept login.now) }
{
    let Some(login) = login else {
        return Ok(None);
    };
    let user = match &login.user {
        Some(user) => Some(user.as_slice()),
        None => None,
    };
    let account = Account {
        user,
        password: &login.password,
    };
    Ok(Some(login_of(alloc, account)?))
}

/// Appends a bulk string of these bytes.
pub(crate) fn bulk(word: &[u8], out: &mut Vec<u8>) -> Result<(), AllocError>
    ensures { OnOk result (out.new.items ≡
        out.old.items ++ canonical_text Version.Two (word_datum word.now)) }
{
    let head = bulk_head(*out.allocator(), word.len())?;
    out.extend_from_slice(head.as_bytes())?;
    out.extend_from_slice(word)?;
    out.extend_from_slice(b"\r\n")?;
    Ok(())
}

/// Returns the head of a bulk string of this many bytes.
fn bulk_head(alloc: Global, length: usize) -> Result<String, AllocError>
    ensures { IfOk result (λ head.
        head.bytes.items ≡ codes "$" ++ decimal length ++ codes "\r\n") }
{
    let head = format!(in alloc; "${length}\r\n")?;
    Ok(head)
}

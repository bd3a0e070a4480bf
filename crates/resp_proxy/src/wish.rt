//! Commands that ask for another setting.

ghost use Rattle.std.specs.Prelude.{◌≡◌, ◌∷◌, ℕ, List, IfNone, IfSome};
ghost use Rattle.resp_proxy.specs.Wishes.{account_asked, account_lent, asked_by, asked_in, auth_asked, both_asked, hello_asked, name_asked, options_asked, reset_asked, select_asked, version_asked};
ghost use Rattle.resp_frames.specs.Keys.{IsFirst};
ghost use Rattle.resp_scan.specs.Whole.{BeginsWith};
ghost use Rattle.resp_value.specs.Words.{command_of};

use resp_scan::whole;
use resp_scan::whole::CommandArguments;
use resp_session::names::is_name;
use resp_value::limits::Limits;
use resp_value::version::Version;

/// A user and its password, as a command names them.
#[derive(Clone, Copy)]
pub struct Account<'a> {
    /// The user, if it is named. Otherwise it is the default user of the server.
    pub user: Option<&'a [u8]>,
    /// The password.
    pub password: &'a [u8],
}

/// The request of a command that concerns the setting of its client.
#[derive(Clone, Copy)]
pub enum Wish<'a> {
    /// HELLO: a version, a user and a name, each if it is given.
    Hello(Option<Version>, Option<Account<'a>>, Option<&'a [u8]>),
    /// AUTH: a user.
    Auth(Account<'a>),
    /// SELECT: the database with this word.
    Select(&'a [u8]),
    /// RESET: the setting in which every client begins.
    Reset,
    /// One of these four commands with other words, which only the server can judge.
    Unclear,
    /// Another command, which needs a dedicated connection.
    Other,
}

/// The command at the beginning of some bytes, and its request.
#[derive(Clone, Copy)]
pub struct WishCommand<'a> {
    /// Its name.
    pub name: &'a [u8],
    /// The first word after its name, if it has one.
    pub first: Option<&'a [u8]>,
    /// The request.
    pub wish: Wish<'a>,
    /// The bytes after the command.
    pub rest: &'a [u8],
}

/// Returns what the command at the beginning of some bytes asks for, or `None` if they do not begin
/// with a command within the limits.
pub fn next_wish<'a>(text: &'a [u8], limits: &Limits) -> Option<WishCommand<'a>>
    ensures asked { IfSome result (λ asking. (arguments : List (List ℕ)) ×
        BeginsWith limits.now text.now (command_of (asking.name.now ∷ arguments))
        asking.rest.now × IsFirst arguments asking.first
        × (asked_in asking.wish ≡ asked_by asking.name.now arguments)) }
    ensures none { IfNone result ((name : List ℕ) (arguments : List (List ℕ)) (rest : List ℕ) →
        BeginsWith limits.now text.now (command_of (name ∷ arguments)) rest → ⊥) }
{
    let command = whole::command(text, limits)?;
    Some(WishCommand {
        name: command.name,
        first: command.arguments.iter().next(),
        wish: wish_of(command.name, command.arguments),
        rest: command.rest,
    })
}

/// Returns what the command of this name with these words after it asks for.
fn wish_of<'a>(name: &[u8], words: CommandArguments<'a>) -> Wish<'a>
    ensures { asked_in result ≡ asked_by name.now words.entry }
{
    if is_name(name, b"hello") {
        hello(words)
    } else if is_name(name, b"auth") {
        auth(words)
    } else if is_name(name, b"select") {
        select(words)
    } else if is_name(name, b"reset") {
        reset(words)
    } else {
        Wish::Other
    }
}

/// Returns what HELLO with these words asks for.
fn hello(mut words: CommandArguments<'_>) -> Wish<'_>
    ensures { asked_in result ≡ hello_asked words.entry }
{
    let Some(word) = words.next() else {
        return Wish::Hello(None, None, None);
    };
    match version_of(word) {
        Some(version) => options(version, words),
        None => Wish::Unclear,
    }
}

/// Returns the version that a word asks for.
fn version_of(word: &[u8]) -> Option<Version>
    ensures { result ≡ version_asked word.now }
{
    if word == b"2".as_slice() {
        Some(Version::Two)
    } else if word == b"3".as_slice() {
        Some(Version::Three)
    } else {
        None
    }
}

/// Returns what HELLO with this version and these words after it asks for.
fn options(version: Version, mut words: CommandArguments<'_>) -> Wish<'_>
    ensures { asked_in result ≡ options_asked version words.entry }
{
    let Some(first) = words.next() else {
        return Wish::Hello(Some(version), None, None);
    };
    let Some(second) = words.next() else {
        return Wish::Unclear;
    };
    let Some(third) = words.next() else {
        return with_name(version, first, second);
    };
    let account = Account {
        user: Some(second),
        password: third,
    };
    let Some(fourth) = words.next() else {
        return with_account(version, first, account);
    };
    let Some(fifth) = words.next() else {
        return Wish::Unclear;
    };
    if words.next().is_some() {
        return Wish::Unclear;
    }
    if is_name(first, b"auth") {
        return with_both(version, first, account, fourth, fifth);
    }
    let account = Account {
        user: Some(fourth),
        password: fifth,
    };
    with_both(version, third, account, first, second)
}

/// Returns what HELLO with an option of one word asks for.
fn with_name<'a>(version: Version, option: &[u8], name: &'a [u8]) -> Wish<'a>
    ensures { asked_in result ≡ name_asked version option.now name.now }
{
    if is_name(option, b"setname") {
        Wish::Hello(Some(version), None, Some(name))
    } else {
        Wish::Unclear
    }
}

/// Returns what HELLO with an option of two words asks for.
fn with_account<'a>(version: Version, option: &[u8], account: Account<'a>) -> Wish<'a>
    ensures { asked_in result ≡ account_asked version option.now (account_lent account.entry) }
{
    if is_name(option, b"auth") {
        Wish::Hello(Some(version), Some(account), None)
    } else {
        Wish::Unclear
    }
}

/// Returns what HELLO with an account and a name asks for. `auth` and `setname` are the words
/// before them.
fn with_both<'a>(
    version: Version,
    auth: &[u8],
    account: Account<'a>,
    setname: &[u8],
    name: &'a [u8],
) -> Wish<'a>
    ensures { asked_in result ≡
        both_asked version auth.now (account_lent account.entry) setname.now name.now }
{
    if is_name(auth, b"auth") && is_name(setname, b"setname") {
        Wish::Hello(Some(version), Some(account), Some(name))
    } else {
        Wish::Unclear
    }
}

/// Returns what AUTH with these words asks for.
fn auth(mut words: CommandArguments<'_>) -> Wish<'_>
    ensures { asked_in result ≡ auth_asked words.entry }
{
    let Some(first) = words.next() else {
        return Wish::Unclear;
    };
    let Some(second) = words.next() else {
        return Wish::Auth(Account {
            user: None,
            password: first,
        });
    };
    match words.next() {
        Some(_) => Wish::Unclear,
        None => Wish::Auth(Account {
            user: Some(first),
            password: second,
        }),
    }
}

/// Returns what SELECT with these words asks for.
fn select(mut words: CommandArguments<'_>) -> Wish<'_>
    ensures { asked_in result ≡ select_asked words.entry }
{
    match (words.next(), words.next()) {
        (Some(word), None) => Wish::Select(word),
        _ => Wish::Unclear,
    }
}

/// Returns what RESET with these words asks for.
fn reset(mut words: CommandArguments<'_>) -> Wish<'_>
    ensures { asked_in result ≡ reset_asked words.entry }
{
    match words.next() {
        None => Wish::Reset,
        Some(_) => Wish::Unclear,
    }
}

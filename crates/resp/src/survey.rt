//! What the proxy would do with each command of a server.

use memchr::memchr;
use resp_cli_args::proxying::Proxying;
use resp_commands::{Class, entry, row_of};
use resp_io::device::{DeviceFault, Sink};
use resp_print::text::{write_number, write_text};
use resp_value::value::Value;
use std::alloc::{AllocError, Global};

/// The place of the name, of the flags and of the subcommands of a command in the reply to COMMAND.
const NAME: usize = 0;

const FLAGS: usize = 2;

const SUBCOMMANDS: usize = 9;

/// The maximum number of characters of a line of names.
const WIDTH: usize = 78;

/// The least numbers of two, three, four and five digits.
const POWERS: [u64; 4] = [10, 100, 1_000, 10_000];

/// What the proxy does with a command. They are printed in this order.
#[derive(Clone, Copy, PartialEq, Eq, PartialOrd, Ord)]
enum Treatment {
    /// It sends the command over the connection that clients share.
    Shared,
    /// It moves the client to the connection of its setting.
    Setting,
    /// It gives the client a connection of its own.
    Own,
    /// It replies itself.
    Itself,
    /// It rejects the command, which is in the table.
    Rejected,
    /// It rejects the command, which is not in the table.
    Unknown,
}

/// All treatments.
const TREATMENTS: [Treatment; 6] = [
    Treatment::Shared,
    Treatment::Setting,
    Treatment::Own,
    Treatment::Itself,
    Treatment::Rejected,
    Treatment::Unknown,
];

impl Treatment {
    /// Returns the word for it.
    fn word(self) -> &'static [u8] {
        match self {
            Treatment::Shared => b"shared",
            Treatment::Setting => b"setting",
            Treatment::Own => b"own",
            Treatment::Itself => b"proxy",
            Treatment::Rejected => b"rejected",
            Treatment::Unknown => b"unknown",
        }
    }

    /// Returns what the word means.
    fn meaning(self) -> &'static [u8] {
        match self {
            Treatment::Shared => b"sent over the connection that clients share",
            Treatment::Setting =>
                b"the client moves to the connection of its version, database and user",
            Treatment::Own => b"the client gets a connection of its own",
            Treatment::Itself => b"the proxy replies itself",
            Treatment::Rejected => b"'NAME' is not served by this proxy",
            Treatment::Unknown => b"unknown command 'NAME'",
        }
    }
}

/// A command, or a subcommand with the name of its command.
#[derive(PartialEq, Eq, PartialOrd, Ord, Drop)]
struct Listed {
    treatment: Treatment,
    /// The name in upper case, with a space before the subcommand.
    name: Vec<u8>,
    /// Whether `--also` may name the command: the table does not have it, and the server does not say that
    /// it may wait, subscribes or administers.
    is_admissible: bool,
    /// Whether `--learn` admits the command: it is admissible, and the server says that it reads or
    /// writes and that scripts may call it. The same is true for all its subcommands.
    is_learnable: bool,
}

/// The commands of a server, sorted by what the proxy does with them and then by name.
#[derive(Drop)]
pub struct Survey {
    listed: Vec<Listed>,
}

/// Why there is no survey.
#[derive(Clone, Copy)]
pub enum SurveyError {
    /// The value is not a list of commands.
    NoList,
    /// An allocation failed.
    Memory,
}

impl From<AllocError> for SurveyError {
    fn from(_: AllocError) -> Self {
        SurveyError::Memory
    }
}

/// The options of the proxy that its treatment of a command depends on.
#[derive(Clone, Copy)]
struct Terms<'a> {
    /// The names of `--also`, with a comma between two of them.
    also: &'a str,
    local_ping: bool,
    /// Whether clients in settings other than the first share a connection.
    has_settings: bool,
    /// Whether the commands that the server says read or write are sent.
    learns: bool,
}

impl Survey {
    /// Returns the survey of a server that sent this reply to COMMAND.
    ///
    /// # Errors
    ///
    /// `NoList` if the value is not a reply to COMMAND, and `Memory` if an allocation fails.
    pub(crate) fn of_reply(
        alloc: Global,
        reply: &Value,
        proxying: &Proxying<'_>,
    ) -> Result<Survey, SurveyError> {
        let terms = Terms {
            also: proxying.also.unwrap_or(""),
            local_ping: proxying.options.local_ping,
            has_settings: proxying.options.lines > 1,
            learns: proxying.learns,
        };
        let mut survey = Survey {
            listed: Vec::new(alloc),
        };
        for command in members_of(reply)? {
            survey.add(alloc, members_of(command)?, terms)?;
        }
        survey.listed.sort()?;
        Ok(survey)
    }

    /// Adds a command, or its subcommands if it has some.
    fn add(&mut self, alloc: Global, parts: &[Value], terms: Terms<'_>) -> Result<(), SurveyError> {
        let subcommands = match parts.get(SUBCOMMANDS) {
            Some(value) => members_of(value)?,
            None => &[],
        };
        if subcommands.is_empty() {
            return self.push(alloc, parts, terms, is_about_data(parts));
        }
        let mut are_about_data = true;
        for subcommand in subcommands {
            are_about_data = are_about_data && is_about_data(members_of(subcommand)?);
        }
        for subcommand in subcommands {
            self.push(alloc, members_of(subcommand)?, terms, are_about_data)?;
        }
        Ok(())
    }

    /// Adds a command or a subcommand. `is_about_data` says whether it and its siblings read or write.
    fn push(
        &mut self,
        alloc: Global,
        parts: &[Value],
        terms: Terms<'_>,
        is_about_data: bool,
    ) -> Result<(), SurveyError> {
        let full_name = text_of(parts.get(NAME).ok_or(SurveyError::NoList)?)?;
        let (name, subcommand) = split(full_name);
        let treatment = treatment_of(name, subcommand, terms);
        let is_admissible = treatment == Treatment::Unknown
            && entry(name).is_none()
            && !is_doubtful(parts.get(FLAGS));
        let is_learnable = is_admissible && is_about_data;
        let is_learned = is_learnable && terms.learns;
        let name = printed(alloc, full_name)?;
        let listed = Listed {
            treatment: if is_learned {
                Treatment::Shared
            } else {
                treatment
            },
            name,
            is_admissible: is_admissible && !is_learned,
            is_learnable,
        };
        self.listed.push(listed).map_err(|_| SurveyError::Memory)
    }

    /// Returns whether the server has a command that the proxy does not know.
    pub(crate) fn has_unknown(&self) -> bool {
        self.count(Treatment::Unknown) > 0
    }

    /// Returns the number of commands with a treatment.
    fn count(&self, treatment: Treatment) -> usize {
        let has_it = |listed: &&Listed| listed.treatment == treatment;
        self.listed.iter().filter(has_it).count()
    }

    /// Prints the number of commands for each treatment, and the names of the commands that are not sent
    /// over the shared connection.
    pub(crate) fn print<W: Sink>(&self, server: &str, writer: &mut W) -> Result<(), DeviceFault> {
        write_number(writer, b"", self.listed.len() as u64, b" commands of ")?;
        write_text(writer, server.as_bytes())?;
        write_text(writer, b"\n")?;
        for treatment in TREATMENTS {
            let count = self.count(treatment);
            if count > 0 {
                write_right(writer, count as u64)?;
                write_text(writer, b" ")?;
                write_text(writer, treatment.word())?;
                write_text(writer, b": ")?;
                write_text(writer, treatment.meaning())?;
                write_text(writer, b"\n")?;
            }
        }
        for treatment in TREATMENTS {
            if treatment != Treatment::Shared && self.count(treatment) > 0 {
                self.print_names(treatment, writer)?;
            }
        }
        self.print_advice(writer)
    }

    /// Prints the names of the commands with a treatment.
    fn print_names<W: Sink>(
        &self,
        treatment: Treatment,
        writer: &mut W,
    ) -> Result<(), DeviceFault> {
        write_text(writer, b"\n")?;
        write_text(writer, treatment.word())?;
        write_text(writer, b":\n")?;
        let mut column = 0;
        for listed in &self.listed {
            if listed.treatment == treatment {
                column = write_name(writer, listed.name.as_slice(), column)?;
            }
        }
        write_text(writer, b"\n")
    }

    /// Prints the option that admits the unknown commands, if there are some that it may admit.
    fn print_advice<W: Sink>(&self, writer: &mut W) -> Result<(), DeviceFault> {
        let mut last: &[u8] = b"";
        for listed in &self.listed {
            let name = command_of(listed.name.as_slice());
            if listed.is_admissible && name != last {
                write_text(writer, if last.is_empty() { b"\n--also " } else { b"," })?;
                write_text(writer, name)?;
                last = name;
            }
        }
        if last.is_empty() {
            return Ok(());
        }
        write_text(
            writer,
            b"\nsends these too; name only those that have one reply and do not wait\n",
        )?;
        self.print_learnable(writer)
    }

    /// Prints the commands that `--learn` admits, if there are some.
    fn print_learnable<W: Sink>(&self, writer: &mut W) -> Result<(), DeviceFault> {
        let mut last = None;
        for number in 0..self.listed.len() {
            let name = match (self.listed.get(number), self.learnable(number)) {
                (Some(listed), Some(name)) if listed.treatment == Treatment::Unknown => name,
                _ => continue,
            };
            write_text(
                writer,
                if last.is_none() {
                    b"\n--learn sends "
                } else {
                    b","
                },
            )?;
            write_text(writer, name)?;
            last = Some(number);
        }
        if last.is_none() {
            return Ok(());
        }
        write_text(
            writer,
            b"\nwithout their names, since the server says that they read or write\n",
        )
    }

    /// Returns the number of commands and subcommands.
    pub(crate) fn len(&self) -> usize {
        self.listed.len()
    }

    /// Returns the name of the command in this place, if `--learn` admits it. Only the first subcommand of
    /// a command returns its name.
    pub(crate) fn learnable(&self, place: usize) -> Option<&[u8]> {
        let listed = self.listed.get(place)?;
        let name = command_of(listed.name.as_slice());
        let before = place
            .checked_sub(1)
            .and_then(|place| self.listed.get(place));
        let is_first = match before {
            Some(before) => command_of(before.name.as_slice()) != name,
            None => true,
        };
        (listed.is_learnable && is_first).then_some(name)
    }

    /// Prints a line for each command.
    pub(crate) fn print_all<W: Sink>(&self, writer: &mut W) -> Result<(), DeviceFault> {
        for listed in &self.listed {
            write_text(writer, listed.treatment.word())?;
            write_text(writer, b" ")?;
            write_text(writer, listed.name.as_slice())?;
            write_text(writer, b"\n")?;
        }
        Ok(())
    }
}

/// Returns what a proxy does with a command, or with a subcommand of it.
fn treatment_of(name: &[u8], subcommand: Option<&[u8]>, terms: Terms<'_>) -> Treatment {
    let Some(row) = row_of(name, subcommand) else {
        return treatment_without_row(name, subcommand, terms);
    };
    match row.class {
        _ if terms.local_ping && name.eq_ignore_ascii_case(b"ping") => Treatment::Itself,
        _ if row.may_block => Treatment::Shared,
        Class::Shared => Treatment::Shared,
        Class::Setting if terms.has_settings => Treatment::Setting,
        Class::Setting | Class::OwnConnection => Treatment::Own,
        Class::OwnAnswer => Treatment::Itself,
        Class::Refused => Treatment::Rejected,
    }
}

/// Returns what a proxy does with a command that the table does not have.
fn treatment_without_row(name: &[u8], subcommand: Option<&[u8]>, terms: Terms<'_>) -> Treatment {
    // The proxy replies to CLIENT SETINFO, which is younger than the table.
    let is_client = name.eq_ignore_ascii_case(b"client");
    if is_client && subcommand.unwrap_or(b"").eq_ignore_ascii_case(b"setinfo") {
        return Treatment::Itself;
    }
    if entry(name).is_none() && is_named(terms.also, name) {
        return Treatment::Shared;
    }
    Treatment::Unknown
}

/// Returns whether a name is one of these, with a comma between two of them, in upper, lower or
/// mixed case.
fn is_named(names: &str, name: &[u8]) -> bool {
    names
        .split(',')
        .any(|other| other.as_bytes().eq_ignore_ascii_case(name))
}

/// Returns the members of an array or a set.
fn members_of(value: &Value) -> Result<&[Value], SurveyError> {
    match value {
        Value::Array(members) | Value::Set(members) => Ok(members.list()),
        _ => Err(SurveyError::NoList),
    }
}

/// Returns the bytes of a string.
fn text_of(value: &Value) -> Result<&[u8], SurveyError> {
    match value {
        Value::Bulk(content) => Ok(content.list()),
        Value::Simple(line) => Ok(line.text()),
        _ => Err(SurveyError::NoList),
    }
}

/// Returns the name of a command and that of its subcommand, which follows `|`.
fn split(full_name: &[u8]) -> (&[u8], Option<&[u8]>) {
    match memchr(b'|', full_name) {
        Some(at) => (&full_name[..at], Some(&full_name[at..][1..])),
        None => (full_name, None),
    }
}

/// Returns the name of a command before the space of its subcommand.
fn command_of(name: &[u8]) -> &[u8] {
    match memchr(b' ', name) {
        Some(at) => &name[..at],
        None => name,
    }
}

/// Returns whether a command has the flag `blocking`, `pubsub` or `admin`, or flags that cannot be
/// read.
fn is_doubtful(flags: Option<&Value>) -> bool {
    let Some(Ok(flags)) = flags.map(members_of) else {
        return true;
    };
    flags.iter().any(|flag| {
        matches!(
            text_of(flag),
            Ok(b"blocking" | b"pubsub" | b"admin") | Err(_)
        )
    })
}

/// Returns whether the flags of a command say that it reads or writes, that it neither waits, subscribes nor
/// administers, and that scripts may call it.
fn is_about_data(parts: &[Value]) -> bool {
    let Some(Ok(flags)) = parts.get(FLAGS).map(members_of) else {
        return false;
    };
    let reads_or_writes = |flag: &Value| matches!(text_of(flag), Ok(b"readonly" | b"write"));
    let is_for_scripts = |flag: &Value| !matches!(text_of(flag), Ok(b"noscript") | Err(_));
    flags.iter().any(reads_or_writes)
        && flags.iter().all(is_for_scripts)
        && !is_doubtful(parts.get(FLAGS))
}

/// Returns a name as it is printed: in upper case, with a space before the subcommand, and with `?` in place
/// of each byte that is not a printable character.
fn printed(alloc: Global, full_name: &[u8]) -> Result<Vec<u8>, AllocError> {
    let mut name = Vec::new(alloc);
    for byte in full_name {
        let byte = match *byte {
            b'|' => b' ',
            b'!'..=b'~' => byte.to_ascii_uppercase(),
            _ => b'?',
        };
        name.push(byte)?;
    }
    Ok(name)
}

/// Writes a name at the end of a line of this many characters, or at the beginning of the next
/// line. Returns the number of characters of its line.
fn write_name<W: Sink>(writer: &mut W, name: &[u8], column: usize) -> Result<usize, DeviceFault> {
    let end = column.saturating_add(name.len()).saturating_add(2);
    let begins_line = column == 0 || end > WIDTH;
    let before: &[u8] = match (column, begins_line) {
        (0, _) => b"  ",
        (_, true) => b",\n  ",
        (_, false) => b", ",
    };
    write_text(writer, before)?;
    write_text(writer, name)?;
    if begins_line {
        Ok(name.len().saturating_add(2))
    } else {
        Ok(end)
    }
}

/// Writes a number of at most five digits with spaces before it, in a column of five.
fn write_right<W: Sink>(writer: &mut W, number: u64) -> Result<(), DeviceFault> {
    for power in POWERS {
        if number < power {
            write_text(writer, b" ")?;
        }
    }
    write_number(writer, b"", number, b"")
}

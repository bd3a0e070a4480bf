//! `resp proxy --learn`, which asks a server for commands that the proxy does not know.

use crate::checking::{CheckError, survey};
use crate::failures::reason_of;
use crate::hosts::{addresses_of, name_of, password_of};
use crate::server_stream::ServerStream;
use crate::survey::Survey;
use resp_cli_args::proxying::Proxying;
use resp_cli_ask::ExchangeError;
use resp_io::device::Device;
use resp_proxy_net::{Learned, Learner, ProxyServer};
use resp_value::value::Value;
use std::alloc::{AllocError, Global};
use std::io::Write;
use std::time::Duration;
use std::{io, str};

/// The time that the server has for each answer while clients wait, in milliseconds.
const PATIENCE: u64 = 1_000;

/// Why nothing is learned.
#[derive(Drop)]
enum LearnError {
    /// There is no connection to the server.
    System(io::Error),
    /// The server did not say its commands.
    Check(CheckError),
}

impl From<io::Error> for LearnError {
    fn from(error: io::Error) -> Self {
        LearnError::System(error)
    }
}

impl From<CheckError> for LearnError {
    fn from(error: CheckError) -> Self {
        LearnError::Check(error)
    }
}

/// `resp proxy --learn`: what the server is asked for, and when.
#[derive(Drop)]
pub struct Learning<'a> {
    rt: &'a HostRuntime,
    proxying: &'a Proxying<'a>,
    /// Whether the server has named its commands before the proxy connected to it.
    is_known: bool,
}

impl<'a> Learning<'a> {
    /// Returns the `Learning` of a proxy, before the server is asked.
    pub(crate) fn new(rt: &'a HostRuntime, proxying: &'a Proxying<'a>) -> Self {
        Learning {
            rt,
            proxying,
            is_known: false,
        }
    }

    /// Asks the server at the start, if `--learn` is given, and lets the proxy send the commands that its
    /// table does not have and that the server says read or write. Says on standard error which these are,
    /// or why there are none.
    ///
    /// # Errors
    ///
    /// `AllocError` if an allocation fails.
    pub(crate) fn begin(&mut self, server: &mut ProxyServer) -> Result<(), AllocError> {
        if !self.proxying.learns {
            return Ok(());
        }
        let timeout = Duration::from_micros(self.proxying.options.times.server_timeout);
        let learned = self.ask(timeout)?;
        let admitted = admit_all(server, &learned.names);
        let (words, why) = (learned.words.as_str(), learned.why.as_str());
        let line = format!(in self.rt.alloc(); "{words}: {why}\n");
        drop(learned);
        admitted?;
        let line = line?;
        let _ = self.rt.stderr().write_all(line.as_str().as_bytes());
        Ok(())
    }

    /// Asks the server for its commands. It has this time to accept the connection and for each read.
    fn ask(&mut self, timeout: Duration) -> Result<Learned, AllocError> {
        let alloc = self.rt.alloc();
        let name = name_of(alloc, &self.proxying.server)?;
        let name = name.as_str();
        match survey_within(self.rt, self.proxying, timeout) {
            Ok(survey) => {
                self.is_known = true;
                let names = names_of(alloc, &survey);
                drop(survey);
                let names = names?;
                let why = shown(alloc, &names)?;
                Ok(Learned {
                    names,
                    words: format!(in alloc; "learned from {name}")?,
                    why,
                })
            }
            Err(error) => {
                let why = why_nothing(alloc, &error);
                drop(error);
                Ok(Learned {
                    names: Vec::new(alloc),
                    words: format!(in alloc; "learned nothing from {name}")?,
                    why: why?,
                })
            }
        }
    }
}

impl Learner for Learning<'_> {
    fn learn(&mut self) -> Result<Option<Learned>, AllocError> {
        if !self.proxying.learns {
            return Ok(None);
        }
        if self.is_known {
            // The first connection is open. The server is asked again over the next one.
            self.is_known = false;
            return Ok(None);
        }
        let learned = self.ask(Duration::from_millis(PATIENCE))?;
        self.is_known = false;
        Ok(Some(learned))
    }
}

/// Asks the server for its commands.
fn survey_within(
    rt: &HostRuntime,
    proxying: &Proxying<'_>,
    timeout: Duration,
) -> Result<Survey, LearnError> {
    let alloc = rt.alloc();
    let addresses = addresses_of(rt, alloc, &proxying.server)?;
    let stream = ServerStream::connect(rt, addresses.as_slice(), Some(timeout))?;
    let (mut reader, mut writer) = (Device::new(&stream), Device::new(&stream));
    let password = password_of(rt);
    Ok(survey(
        alloc,
        proxying,
        password.as_deref(),
        &mut reader,
        &mut writer,
    )?)
}

/// Returns the names of the learnable commands.
fn names_of(alloc: Global, survey: &Survey) -> Result<Vec<Vec<u8>>, AllocError> {
    let mut names = Vec::new(alloc);
    for place in 0..survey.len() {
        if let Some(name) = survey.learnable(place) {
            names.push(name.to_vec(alloc)?)?;
        }
    }
    Ok(names)
}

/// Returns these names with a space between two of them.
fn shown(alloc: Global, names: &[Vec<u8>]) -> Result<String, AllocError> {
    let mut text = String::new(alloc);
    for name in names {
        if !text.is_empty() {
            text.push_str(" ")?;
        }
        text.push_str(str::from_utf8(name).unwrap_or(""))?;
    }
    if text.is_empty() {
        text.push_str("no command")?;
    }
    Ok(text)
}

/// Lets the proxy send the commands of these names.
fn admit_all(server: &mut ProxyServer, names: &[Vec<u8>]) -> Result<(), AllocError> {
    for name in names {
        server.admit(name)?;
    }
    Ok(())
}

/// Returns why nothing is learned, as a text.
fn why_nothing(alloc: Global, error: &LearnError) -> Result<String, AllocError> {
    match error {
        LearnError::System(error) => reason_of(alloc, error),
        LearnError::Check(CheckError::Ask(ExchangeError::Read)) => String::from_str(
            alloc, "no reply",
        ),
        LearnError::Check(CheckError::Ask(error)) => format!(in alloc; "{error}"),
        LearnError::Check(CheckError::Reply(Value::Error(line))) => {
            String::from_str(alloc, str::from_utf8(line.text()).unwrap_or("an error"))
        }
        LearnError::Check(CheckError::Reply(_)) => {
            String::from_str(alloc, "the reply to COMMAND is not a list of commands")
        }
    }
}

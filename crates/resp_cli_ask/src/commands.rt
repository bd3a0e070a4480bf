//! The commands of an input, which is read in pieces.

use crate::failure::Failure;
use bytes::BytesMut;
use resp_io::device::{DeviceFault, Sink, Source};
use resp_print::text::write_number;
use resp_value::command::Command;
use std::alloc::{AllocError, Global};

/// The maximum number of bytes of one read.
const PIECE: usize = 65_536;

/// The commands of an input.
pub trait CommandInput {
    /// Returns the next command that was read completely, or `None` if a piece has to be read first.
    ///
    /// # Errors
    ///
    /// `Line`, `Raw` or `NotACommand` if the next bytes are not a command, and `Ask` if an
    /// allocation fails.
    fn next(&mut self, alloc: Global) -> Result<Option<Given>, Failure>;

    /// Reads a piece of the input. Returns whether there was one: after the end of the input, there is no
    /// piece.
    ///
    /// # Errors
    ///
    /// `Input` if the read fails, `Raw` if the input ends inside a command, and `Ask` if an
    /// allocation fails.
    fn fill<I: Source>(&mut self, input: &mut I) -> Result<bool, Failure>;
}

/// A command of an input.
#[derive(Drop)]
pub struct Given {
    pub command: Command,
    /// The number of its bytes in the input.
    pub length: usize,
    pub place: CommandPlace,
}

/// Where a command was given.
#[derive(Clone, Copy, Debug, PartialEq, Eq)]
pub enum CommandPlace {
    /// In the words of the command line.
    Words,
    /// In the line of the input with this number, from 1.
    Line(u64),
    /// In the input, as the command with this number, from 1.
    Command(u64),
}

impl CommandPlace {
    /// Writes the place in front of an error. The words of the command line have no text.
    pub fn write<F: Sink>(self, faults: &mut F) -> Result<(), DeviceFault> {
        match self {
            CommandPlace::Words => Ok(()),
            CommandPlace::Line(number) => write_number(faults, b"line ", number, b": "),
            CommandPlace::Command(number) => write_number(faults, b"command ", number, b": "),
        }
    }
}

/// Why a piece was not read.
#[derive(Clone, Copy, Debug)]
pub(crate) enum FillError {
    /// The read failed.
    Read,
    /// An allocation failed.
    Memory,
}

impl From<DeviceFault> for FillError {
    fn from(_: DeviceFault) -> Self {
        FillError::Read
    }
}

impl From<AllocError> for FillError {
    fn from(_: AllocError) -> Self {
        FillError::Memory
    }
}

/// Reads a piece of an input to the end of these bytes. Returns the number of bytes read; 0 is the end of
/// the input.
pub(crate) fn read_into<I: Source>(
    input: &mut I,
    bytes: &mut BytesMut,
) -> Result<usize, FillError> {
    let mut piece = [0; PIECE];
    let count = input.read(&mut piece)?;
    bytes.extend_from_slice(&piece[..count])?;
    Ok(count)
}

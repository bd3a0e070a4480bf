//! The commands that a proxy learns from its server.

use std::alloc::AllocError;

/// Asks a server for commands that the proxy does not know.
pub trait Learner {
    /// Asks the server, to which the proxy has just connected, and says what it has said. Returns `None` if
    /// the server is not asked. The proxy serves nobody meanwhile.
    ///
    /// # Errors
    ///
    /// `AllocError` if an allocation fails.
    fn learn(&mut self) -> Result<Option<Learned>, AllocError>;
}

/// What a server has said about its commands.
#[derive(Drop)]
pub struct Learned {
    /// The names of the commands that the proxy sends from now on.
    pub names: Vec<Vec<u8>>,
    /// The beginning of the message on standard error, which names the server.
    pub words: String,
    /// The names in the message, or the reason why there are none.
    pub why: String,
}

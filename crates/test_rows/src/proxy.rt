//! Rows that run on a proxy with some clients and a server.

use crate::cut::{Cut, pieces};
use crate::subject::Subject;
use crate::text::{bytes, number, split};
use anyhow::{Context, Result, bail};
use resp_io::{MemorySink, MemorySource};
use resp_proxy::{
    Client, Ending, Opening, Proxy, Read, ServerError, ServerLine, Setting, Settings,
};
use resp_value::version::Version;
use std::alloc::Global;
use std::mem;

/// The most bytes of a write.
const MOST: usize = 65_536;

/// A client, and what it has got in a row.
#[derive(Drop)]
struct Seat {
    number: u64,
    client: Client,
    got: Vec<u8>,
    /// The bytes that the client has sent and that were not read.
    pending: Vec<u8>,
    /// Why the client is closing, if the row began to close it.
    closing: Option<Read>,
}

/// A proxy, its open clients, and the bytes that the server has got in a row.
#[derive(Drop)]
pub(crate) struct Proxying {
    alloc: Global,
    proxy: Proxy,
    /// The line of the clients that are opened.
    line: ServerLine,
    seats: Vec<Seat>,
    /// The clients that are leaving and have all their replies.
    leaving: Vec<Seat>,
    sent: Vec<u8>,
    /// The numbers of the clients that were replied to by the last row of the server, in order. A
    /// client that was closed has number 0.
    told: Vec<u64>,
    /// The number of bytes that the server still takes over this connection.
    takes: usize,
    /// Whether the last error of the server was that of a probe.
    is_out_of_step: bool,
}

/// Lets a new connection continue a line. The server replies to HELLO if the line is in version 3.
fn attach(alloc: Global, proxy: &Proxy, line: &mut ServerLine) -> Result<()> {
    let mut opening = Opening::new(alloc, line.setting(), b"", Ending::Setting)?;
    if line.setting().version == Version::Three {
        let mut source = MemorySource::new(b"%1\r\n$5\r\nproto\r\n:3\r\n", MOST);
        let mut sink = MemorySink::new(alloc, MOST, MOST)?;
        let _ = opening.visit(&mut source, &mut sink, &mut [0; 64])?;
    }
    proxy.attach(line, opening)?;
    Ok(())
}

impl Subject for Proxying {
    fn new(alloc: Global) -> Result<Proxying> {
        let mut proxy = Proxy::new(alloc, Settings::standard())?;
        let mut line = proxy.open_line(&Setting::first(alloc)?)?;
        attach(alloc, &proxy, &mut line)?;
        Ok(Proxying {
            alloc,
            proxy,
            line,
            seats: Vec::new(alloc),
            leaving: Vec::new(alloc),
            sent: Vec::new(alloc),
            told: Vec::new(alloc),
            takes: MOST,
            is_out_of_step: false,
        })
    }

    fn is_cut(name: &str) -> bool {
        name == "client" || name == "server"
    }

    fn run(&mut self, name: &str, given: &str, cut: Cut, said: &mut String) -> Result<()> {
        match name {
            "proxy" => self.renew(given)?,
            "local-ping" => self.begin(Settings {
                local_ping: true,
                ..Settings::standard()
            })?,
            "no-lines" => self.begin(Settings {
                lines: false,
                ..Settings::standard()
            })?,
            "three" => self.open_three()?,
            "enter" => self.enter(given)?,
            "own" => self.proxy.admit_own(true),
            "prober" => self.open_prober()?,
            "probe" => self.probe(given)?,
            "admit" => self.proxy.admit(given.as_bytes())?,
            "client" => self.hear_client(given, cut)?,
            "server" => self.hear_server(given, cut, said)?,
            "end" => self.end(given)?,
            "close" => self.close(given)?,
            "lose" => self.lose(said)?,
            "takes" => self.takes = number(given)? as usize,
            "told" => self.say_told(said)?,
            _ => bail!("an unknown row"),
        }
        self.settle()?;
        self.tell(said)
    }
}

impl Proxying {
    /// `proxy WAITING HELD UNSENT` begins a proxy with these bounds.
    fn renew(&mut self, given: &str) -> Result<()> {
        let (waiting, rest) = split(given);
        let (held, unsent) = split(rest);
        let settings = Settings {
            waiting: waiting.parse()?,
            held: held.parse()?,
            unsent: unsent.parse()?,
            ..Settings::standard()
        };
        self.begin(settings)
    }

    /// Begins a proxy with these settings.
    fn begin(&mut self, settings: Settings) -> Result<()> {
        self.proxy = Proxy::new(self.alloc, settings)?;
        self.line = self.proxy.open_line(&Setting::first(self.alloc)?)?;
        attach(self.alloc, &self.proxy, &mut self.line)?;
        self.seats.clear();
        self.leaving.clear();
        Ok(())
    }

    /// `three`: opens a line in version 3.
    fn open_three(&mut self) -> Result<()> {
        let mut setting = Setting::first(self.alloc)?;
        setting.version = Version::Three;
        self.line = self.proxy.open_line(&setting)?;
        attach(self.alloc, &self.proxy, &mut self.line)
    }

    /// `prober`: opens the proxy's own client that sends probes.
    fn open_prober(&mut self) -> Result<()> {
        let _ = self.proxy.open_prober(&mut self.line)?;
        Ok(())
    }

    /// Returns the place of a client. The client is opened if it is not open.
    fn place_of(&mut self, number: u64) -> Result<usize> {
        for place in 0..self.seats.len() {
            if self.seats[place].number == number {
                return Ok(place);
            }
        }
        let client = self.proxy.open(&self.line)?;
        self.seats.push(Seat {
            number,
            client,
            got: Vec::new(self.alloc),
            pending: Vec::new(self.alloc),
            closing: None,
        })?;
        Ok(self.seats.len().saturating_sub(1))
    }

    /// `client NUMBER TEXT`: the client sends the text, and each piece of it is one visit.
    fn hear_client(&mut self, given: &str, cut: Cut) -> Result<()> {
        let (who, text) = split(given);
        let place = self.place_of(number(who)?)?;
        let text = bytes(self.alloc, text)?;
        for piece in pieces(self.alloc, text.as_slice(), cut)? {
            if !piece.is_empty() {
                self.visit(place, piece)?;
            }
        }
        Ok(())
    }

    /// `end NUMBER`: the input of the client ends.
    fn end(&mut self, given: &str) -> Result<()> {
        let place = self.place_of(number(given)?)?;
        self.visit(place, b"")
    }

    /// Visits a client until it has read this piece. If nothing may be read, the piece is pending.
    fn visit(&mut self, place: usize, piece: &[u8]) -> Result<()> {
        let mut reader = MemorySource::new(piece, MOST);
        let mut writer = MemorySink::new(self.alloc, MOST, MOST)?;
        let mut buffer = [0; 4_096];
        let seat = self.seats.get_mut(place).context("no such client")?;
        for _ in 0..3 {
            let visit = self.proxy.visit_client(
                &mut seat.client,
                &mut reader,
                &mut writer,
                buffer.as_mut_slice(),
            );
            if matches!(visit.read, Read::Closing(_) | Read::Ended) {
                if seat.closing.is_none() {
                    seat.closing = Some(visit.read);
                }
                break;
            }
            if reader.calls() > 0 {
                break;
            }
        }
        if reader.calls() == 0 && !seat.client.is_closing() {
            seat.pending.extend_from_slice(piece)?;
        }
        seat.got.extend_from_slice(writer.bytes())?;
        Ok(())
    }

    /// `server TEXT`: the server sends the text.
    fn hear_server(&mut self, given: &str, cut: Cut, said: &mut String) -> Result<()> {
        let text = bytes(self.alloc, given)?;
        for piece in pieces(self.alloc, text.as_slice(), cut)? {
            let taken = self.proxy.from_server(&mut self.line, piece);
            self.proxy.settle_probes(&mut self.line);
            if let Err(error) = taken {
                writeln!(said, "server: {error}")?;
                self.is_out_of_step = error == ServerError::OutOfStep;
                break;
            }
        }
        self.ask_told(said)
    }

    /// `probe BYTE`: the proxy sends a probe whose word is 32 times this byte.
    fn probe(&mut self, given: &str) -> Result<()> {
        let byte = given
            .as_bytes()
            .first()
            .context("a probe without its byte")?;
        self.proxy.probe(&mut self.line, &[*byte; 32])?;
        Ok(())
    }

    /// `lose`: the connection to the server is lost.
    fn lose(&mut self, said: &mut String) -> Result<()> {
        if self.is_out_of_step {
            self.proxy.lose_out_of_step(&mut self.line)?;
        } else {
            self.proxy.lose(&mut self.line)?;
        }
        self.proxy.settle_probes(&mut self.line);
        attach(self.alloc, &self.proxy, &mut self.line)?;
        self.is_out_of_step = false;
        self.takes = MOST;
        self.ask_told(said)
    }

    /// Asks which clients were replied to, and gives them their bytes. No bytes wait for the
    /// others.
    fn ask_told(&mut self, said: &mut String) -> Result<()> {
        self.told.clear();
        while let Some(id) = self.proxy.next_replied() {
            if self.line.is_prober(id) {
                continue;
            }
            let mut told = 0;
            for seat in &self.seats {
                if seat.client.id() == id {
                    told = seat.number;
                }
            }
            self.told.push(told)?;
        }
        for seat in &mut self.seats {
            let mut writer = MemorySink::new(self.alloc, MOST, MOST)?;
            let _ = self.proxy.give(&seat.client, &mut writer);
            if !writer.bytes().is_empty() && !self.told.contains(&seat.number) {
                writeln!(said, "client {} was not told", seat.number)?;
            }
            seat.got.extend_from_slice(writer.bytes())?;
        }
        Ok(())
    }

    /// `told`: prints which clients the last row of the server replied to.
    fn say_told(&self, said: &mut String) -> Result<()> {
        write!(said, "told")?;
        for number in &self.told {
            write!(said, " {number}")?;
        }
        writeln!(said)?;
        Ok(())
    }

    /// `close NUMBER`: the client goes.
    fn close(&mut self, given: &str) -> Result<()> {
        let place = self.place_of(number(given)?)?;
        let seat = self.seats.remove(place);
        let Seat { client, .. } = seat;
        self.proxy.close(client);
        Ok(())
    }

    /// Writes all that waits, and takes the bytes for which there is room then.
    fn settle(&mut self) -> Result<()> {
        self.write()?;
        for place in 0..self.seats.len() {
            let pending = mem::replace(&mut self.seats[place].pending, Vec::new(self.alloc));
            if !pending.is_empty() {
                self.visit(place, pending.as_slice())?;
            }
            let seat = self.seats.get_mut(place).context("no such client")?;
            if !seat.client.is_closing() {
                let _ = self.proxy.from_client(&mut seat.client, b"");
            }
        }
        self.write()
    }

    fn write(&mut self) -> Result<()> {
        let mut server = MemorySink::new(self.alloc, MOST, self.takes)?;
        let _ = self.proxy.send(&self.line, &mut server);
        self.takes = self.takes.saturating_sub(server.bytes().len());
        self.sent.extend_from_slice(server.bytes())?;
        for seat in &mut self.seats {
            let mut writer = MemorySink::new(self.alloc, MOST, MOST)?;
            let _ = self.proxy.give(&seat.client, &mut writer);
            seat.got.extend_from_slice(writer.bytes())?;
        }
        Ok(())
    }

    /// Prints what the server and the clients got, which clients are closing, and which get a
    /// connection of their own, with the bytes that are sent over it first.
    fn tell(&mut self, said: &mut String) -> Result<()> {
        if !self.sent.is_empty() {
            writeln!(said, "server {}", self.sent.escape_ascii())?;
            self.sent.clear();
        }
        for seat in &mut self.seats {
            if !seat.got.is_empty() {
                writeln!(said, "client {} {}", seat.number, seat.got.escape_ascii())?;
                seat.got.clear();
            }
            if let Some(read) = seat.closing.take() {
                match read {
                    Read::Closing(error) => writeln!(said, "closing {}: {error}", seat.number)?,
                    _ => writeln!(said, "closing {}", seat.number)?,
                }
            }
        }
        self.say_leaving(said)
    }

    /// Prints which clients may leave, with the bytes of their next commands.
    fn say_leaving(&mut self, said: &mut String) -> Result<()> {
        let mut place = 0;
        while place < self.seats.len() {
            if !self.proxy.may_leave(&self.seats[place].client) {
                place += 1;
                continue;
            }
            let seat = self.seats.remove(place);
            let mut first = seat.client.rest().to_vec(self.alloc)?;
            first.extend_from_slice(seat.pending.as_slice())?;
            writeln!(
                said,
                "own {} {}",
                seat.number,
                first.as_slice().escape_ascii()
            )?;
            self.leaving.push(seat)?;
        }
        Ok(())
    }

    /// `enter NUMBER COUNT TEXT`: a client that may leave uses the line from now on. The text is the
    /// reply to its next command, which has as many bytes as COUNT says.
    fn enter(&mut self, given: &str) -> Result<()> {
        let (who, rest) = split(given);
        let (count, reply) = split(rest);
        let who = number(who)?;
        let Some(place) = self.leaving.iter().position(|seat| seat.number == who) else {
            bail!("the client is not leaving");
        };
        let mut seat = self.leaving.remove(place);
        let count = (number(count)? as usize).min(seat.client.rest().len());
        let reply = bytes(self.alloc, reply)?;
        self.proxy
            .enter(&mut seat.client, &self.line, count, reply.as_slice())?;
        self.seats.push(seat)?;
        Ok(())
    }
}

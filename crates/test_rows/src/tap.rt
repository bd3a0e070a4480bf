//! Rows that run on a tap.

use crate::bounds;
use crate::cut::{Cut, pieces};
use crate::subject::Subject;
use crate::text::bytes;
use anyhow::{Result, bail};
use resp_stats::{Counts, table_of};
use resp_tap::end::write_end;
use resp_tap::screen::Screen;
use resp_tap::stamp::Stamp;
use resp_tap::watch::{Given, Side, watch};
use resp_tap::{CountedTap, Filter, FilteredTap, Moment, Printing, ShownPart, Utc};
use resp_value::Limits;
use std::alloc::Global;
use std::str;
use std::time::Duration;

/// The number of bytes printed for a row that are compared.
const MOST: usize = 65_536;

/// A tap that prints the traffic, or counts the commands.
#[derive(Drop)]
enum Watching {
    Printed(FilteredTap),
    Counted(CountedTap, Counts),
}

/// A tap of the connection of client 1.
#[derive(Drop)]
pub(crate) struct Tapping {
    alloc: Global,
    limits: Limits,
    /// Whether lines are commands.
    reads_lines: bool,
    /// Whether commands are counted.
    is_counted: bool,
    /// The tap, once bytes have passed.
    watching: Option<Watching>,
    /// The time at which the next bytes pass, if the row sets a time.
    now: Option<Moment>,
    /// Whether the times that are set from here on are printed with their date.
    shows_date: bool,
    printing: Printing,
    /// How many bytes of each text are printed.
    shown: ShownPart,
    filter: Filter,
}

impl Subject for Tapping {
    fn new(alloc: Global) -> Result<Tapping> {
        Ok(Tapping {
            alloc,
            limits: Limits::standard().with_doubles(true),
            reads_lines: true,
            is_counted: false,
            watching: None,
            now: None,
            shows_date: false,
            printing: Printing {
                client: 1,
                shows_passwords: false,
            },
            shown: ShownPart::all(),
            filter: Filter::all(alloc),
        })
    }

    fn is_cut(name: &str) -> bool {
        name == "client" || name == "server"
    }

    fn run(&mut self, name: &str, given: &str, cut: Cut, said: &mut String) -> Result<()> {
        match name {
            "tap" => self.renew(given),
            "now" => self.set_clock(given),
            "dates" => {
                self.shows_date = true;
                Ok(())
            }
            "passwords" => {
                self.printing.shows_passwords = true;
                Ok(())
            }
            "shown" => self.set_shown(given),
            "errors" => {
                self.filter.errors = true;
                Ok(())
            }
            "slower" => self.set_slower(given),
            "command" => self.add_name(given),
            "key" => self.set_key(given),
            "only" => self.set_client(given),
            "connections" => {
                self.filter.connections = true;
                Ok(())
            }
            "arrays" => {
                self.reads_lines = false;
                Ok(())
            }
            "count" => {
                self.is_counted = true;
                Ok(())
            }
            "table" => self.say_table(said),
            "client" => self.pass(Side::Client, given, cut, said),
            "server" => self.pass(Side::Server, given, cut, said),
            "end" => self.end(given, said),
            _ => bail!("an unknown row"),
        }
    }
}

impl Tapping {
    /// `tap LIMITS` begins a tap of a new connection, which is read within these limits.
    fn renew(&mut self, limits: &str) -> Result<()> {
        self.limits = bounds::limits(limits)?;
        self.watching = None;
        Ok(())
    }

    /// Makes the tap of a new connection, unless bytes have passed.
    fn begin(&mut self) -> Result<()> {
        if self.watching.is_some() {
            return Ok(());
        }
        let (alloc, filter) = (self.alloc, self.filter.clone()?);
        let watching = if self.is_counted {
            let counts = Counts::new(alloc)?;
            Watching::Counted(CountedTap::new(alloc, &self.limits, filter), counts)
        } else {
            let tap = FilteredTap::new(alloc, &self.limits, self.shown, filter);
            Watching::Printed(tap.with_lines(self.reads_lines))
        };
        self.watching = Some(watching);
        Ok(())
    }

    /// `shown BYTES` shows this many bytes of each text.
    fn set_shown(&mut self, bytes: &str) -> Result<()> {
        self.shown = ShownPart::first(bytes.parse()?);
        Ok(())
    }

    /// `now UTC STEADY` sets the time of all bytes that pass from here on, in microseconds: the time
    /// since 1970, and the time of a clock that is never set.
    fn set_clock(&mut self, moment: &str) -> Result<()> {
        let Some((utc, steady)) = moment.split_once(' ') else {
            bail!("a moment has two numbers");
        };
        self.now = Some(Moment {
            utc: Utc {
                micros: utc.parse()?,
                shows_date: self.shows_date,
            },
            steady: steady.parse()?,
        });
        Ok(())
    }

    /// `slower MICROSECONDS` prints only commands that waited longer.
    fn set_slower(&mut self, micros: &str) -> Result<()> {
        self.filter.slower = Some(micros.parse()?);
        Ok(())
    }

    /// `command NAME` prints only commands with this name, and with those of such rows before.
    fn add_name(&mut self, name: &str) -> Result<()> {
        self.filter
            .names
            .push(Vec::from_slice(self.alloc, name.as_bytes())?)?;
        Ok(())
    }

    /// `key GLOB` prints only commands with a key that this glob matches.
    fn set_key(&mut self, glob: &str) -> Result<()> {
        self.filter.key = Some(Vec::from_slice(self.alloc, glob.as_bytes())?);
        Ok(())
    }

    /// `only NUMBER` prints only the lines about the client with this number.
    fn set_client(&mut self, number: &str) -> Result<()> {
        self.filter.client = Some(number.parse()?);
        Ok(())
    }

    /// `table` prints the counts.
    fn say_table(&mut self, said: &mut String) -> Result<()> {
        self.begin()?;
        let Some(Watching::Counted(_, counts)) = &self.watching else {
            bail!("nothing is counted");
        };
        let table = table_of(self.alloc, counts)?;
        said.push_str(table.as_str())?;
        Ok(())
    }

    /// `end client` and `end server` print what the tap shows when this side has ended.
    fn end(&mut self, side: &str, said: &mut String) -> Result<()> {
        let side = match side {
            "client" => Side::Client,
            "server" => Side::Server,
            _ => bail!("a side is the client or the server"),
        };
        self.begin()?;
        let connection = match &self.watching {
            Some(Watching::Printed(tap)) => tap.connection(),
            Some(Watching::Counted(tap, _)) => tap.connection(),
            None => bail!("no tap"),
        };
        let stamp = match self.now {
            Some(now) => Some(Stamp::new(now)),
            None => None,
        };
        let mut screen = Screen::new(self.alloc, MOST);
        let name = if self.filter.connections {
            connection.name().as_bytes()
        } else {
            b""
        };
        write_end(1, name, side, connection.cut(side), stamp, &mut screen)?;
        said.push_str(str::from_utf8(screen.text())?)?;
        Ok(())
    }

    /// `client TEXT` and `server TEXT` print what the tap shows of a text sent by this side.
    fn pass(&mut self, side: Side, given: &str, cut: Cut, said: &mut String) -> Result<()> {
        self.begin()?;
        let alloc = self.alloc;
        let text = bytes(alloc, given)?;
        let mut screen = Screen::new(alloc, MOST);
        let start = Moment::new(Duration::ZERO, Duration::ZERO, false);
        let printing = self.printing;
        for piece in pieces(alloc, text.as_slice(), cut)? {
            match &mut self.watching {
                Some(Watching::Printed(tap)) => {
                    let now = self.now;
                    let given = Given { printing, now };
                    watch(tap, &mut (), given, side, piece, &mut screen)?;
                }
                Some(Watching::Counted(tap, counts)) => {
                    let now = self.now.unwrap_or(start);
                    watch(
                        tap,
                        counts,
                        Given { printing, now },
                        side,
                        piece,
                        &mut screen,
                    )?;
                }
                None => bail!("no tap"),
            }
        }
        said.push_str(str::from_utf8(screen.text())?)?;
        Ok(())
    }
}

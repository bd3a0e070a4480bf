//! Parts that test a proxy. After a failed allocation the client or the connection to the server is
//! closed, and the other clients go on.

use crate::outcome::Outcome;
use resp_board::{OpenError, OwnError};
use resp_frames::FrameError;
use resp_io::{MemorySink, MemorySource};
use resp_proxy::{
    Client, ClientError, Ending, EnterError, Opening, OpeningError, OpeningProgress, Proxy,
    ServerError, ServerLine, Setting, Settings, next_wish,
};
use resp_value::version::Version;
use std::alloc::{AllocError, Global};

const PING: &[u8] = b"*1\r\n$4\r\nPING\r\n";

/// SELECT, and a command behind it.
const MOVES: &[u8] = b"*2\r\n$6\r\nSELECT\r\n$1\r\n7\r\n*1\r\n$4\r\nPING\r\n";

/// The number of bytes of SELECT.
const SELECT: usize = 23;

/// Returns a proxy with a line in the first setting.
fn one_line(alloc: Global) -> Result<(Proxy, ServerLine), AllocError> {
    let mut proxy = Proxy::new(alloc, Settings::standard())?;
    let mut line = proxy.open_line(&Setting::first(alloc)?)?;
    // The first setting needs no command.
    let opening = Opening::new(alloc, line.setting(), b"", Ending::Setting)?;
    match proxy.attach(&mut line, opening) {
        Ok(()) => Ok((proxy, line)),
        Err(_) => Err(AllocError),
    }
}

/// Returns a proxy with a line and two clients.
fn two_clients(alloc: Global) -> Result<(Proxy, ServerLine, Client, Client), AllocError> {
    let (mut proxy, line) = one_line(alloc)?;
    let (Ok(first), Ok(second)) = (proxy.open(&line), proxy.open(&line)) else {
        return Err(AllocError);
    };
    Ok((proxy, line, first, second))
}

/// Returns whether a client whose command could not be taken is closing, and whether the other
/// client goes on.
fn goes_on(proxy: &mut Proxy, line: &ServerLine, closed: &Client, other: &mut Client) -> bool {
    let waiting = proxy.waiting(line);
    let taken = proxy.from_client(other, PING);
    closed.is_closing() && taken.is_ok() && proxy.waiting(line) == waiting + 1
}

pub(crate) fn of_open(alloc: Global) -> Outcome {
    let Ok((mut proxy, line)) = one_line(alloc) else {
        return Outcome::OutOfMemory;
    };
    for _ in 0..9 {
        match proxy.open(&line) {
            Ok(client) => {
                if client.is_closing() {
                    return Outcome::Wrong;
                }
            }
            Err(OpenError::OutOfMemory) => return Outcome::refused(proxy.open(&line).is_ok()),
            Err(_) => return Outcome::Wrong,
        }
    }
    Outcome::Whole
}

/// A command that is queued, a reply of the proxy itself, an error with a name, and a command that
/// has begun.
pub(crate) fn of_client(alloc: Global) -> Outcome {
    of_pieces(
        alloc,
        [
            PING,
            b"*2\r\n$6\r\nCLIENT\r\n$2\r\nID\r\n",
            b"*1\r\n$5\r\nDEBUG\r\n",
            b"*1\r\n$4\r\nPI",
        ],
    )
}

/// The same as lines.
pub(crate) fn of_lines(alloc: Global) -> Outcome {
    of_pieces(
        alloc,
        [
            b"ECHO \"a b\"\r\n",
            b"CLIENT ID\r\n",
            b"\r\nDEBUG\r\n*0\r\n",
            b"PI",
        ],
    )
}

/// A client sends four pieces, which have one command for the server.
fn of_pieces(alloc: Global, pieces: [&[u8]; 4]) -> Outcome {
    let Ok((mut proxy, mut line, mut first, mut second)) = two_clients(alloc) else {
        return Outcome::OutOfMemory;
    };
    for piece in pieces {
        match proxy.from_client(&mut first, piece) {
            Ok(()) => {}
            Err(ClientError::OutOfMemory | ClientError::Protocol(_)) => {
                return Outcome::refused(goes_on(&mut proxy, &line, &first, &mut second));
            }
            Err(_) => return Outcome::Wrong,
        }
    }
    Outcome::of(proxy.waiting(&line) == 1 && !first.is_closing())
}

/// A client whose second command needs a connection of its own, in three pieces. It gets this
/// connection after the reply to the first one.
pub(crate) fn of_leaving(alloc: Global) -> Outcome {
    let Ok((mut proxy, mut line, mut first, mut second)) = two_clients(alloc) else {
        return Outcome::OutOfMemory;
    };
    proxy.admit_own(true);
    for piece in [
        PING,
        b"*1\r\n$5\r\nMU".as_slice(),
        b"LTI\r\n*1\r\n".as_slice(),
        b"$4\r\nEXEC\r\n".as_slice(),
    ] {
        match proxy.from_client(&mut first, piece) {
            Ok(()) => {}
            Err(ClientError::OutOfMemory | ClientError::Protocol(_)) => {
                return Outcome::refused(goes_on(&mut proxy, &line, &first, &mut second));
            }
            Err(_) => return Outcome::Wrong,
        }
    }
    if proxy.may_leave(&first) || !first.is_leaving() {
        return Outcome::Wrong;
    }
    if pong(alloc, &mut proxy, &mut line, &first).is_err() {
        return Outcome::OutOfMemory;
    }
    if !proxy.may_leave(&first) {
        return Outcome::Wrong;
    }
    let Ok(rest) = proxy.leave(first) else {
        return Outcome::Wrong;
    };
    Outcome::of(rest.as_slice() == b"*1\r\n$5\r\nMULTI\r\n*1\r\n$4\r\nEXEC\r\n".as_slice())
}

/// A client moves to another line, and gets the reply to its command there. Without memory it stays
/// where it is, and moves when it is asked again.
pub(crate) fn of_moving(alloc: Global) -> Outcome {
    let Ok((mut proxy, line, mut first, _)) = two_clients(alloc) else {
        return Outcome::OutOfMemory;
    };
    proxy.admit_own(true);
    if proxy.from_client(&mut first, MOVES).is_err() {
        return Outcome::OutOfMemory;
    }
    let Ok(seven) = in_database_seven(alloc) else {
        return Outcome::OutOfMemory;
    };
    let Ok(other) = proxy.open_line(&seven) else {
        return Outcome::refused(proxy.may_leave(&first));
    };
    let used = SELECT.min(first.rest().len());
    match proxy.enter(&mut first, &other, used, b"+OK\r\n") {
        Ok(()) => Outcome::of(moves_on(&mut proxy, &line, &other, &mut first)),
        Err(EnterError::Own(OwnError::OutOfMemory)) => {
            let again = proxy.enter(&mut first, &other, used, b"+OK\r\n").is_ok();
            Outcome::refused(again && !first.is_leaving())
        }
        Err(_) => Outcome::Wrong,
    }
}

/// Returns whether a client that has moved to a line has its reply, and its next command waits there.
fn moves_on(proxy: &mut Proxy, line: &ServerLine, other: &ServerLine, client: &mut Client) -> bool {
    let owed = proxy.unread(client);
    let taken = proxy.from_client(client, b"");
    // Without memory for its command it is closing.
    let waits = proxy.waiting(other) == 1 || (taken.is_err() && client.is_closing());
    owed == 5 && proxy.waiting(line) == 0 && waits
}

/// Returns the setting of database 7.
fn in_database_seven(alloc: Global) -> Result<Setting, AllocError> {
    let mut setting = Setting::first(alloc)?;
    setting.database = b"7".to_vec(alloc)?;
    Ok(setting)
}

/// The setting after SELECT, and its commands for a new connection.
pub(crate) fn of_setting(alloc: Global) -> Outcome {
    match commands_of_setting(alloc) {
        Ok(commands) => Outcome::of(commands.as_slice() == &MOVES[..SELECT]),
        Err(AllocError) => Outcome::OutOfMemory,
    }
}

fn commands_of_setting(alloc: Global) -> Result<Vec<u8>, AllocError> {
    let first = Setting::first(alloc)?;
    let mut commands = Vec::new(alloc);
    if let Some(asking) = next_wish(MOVES, &Settings::standard().limits) {
        if let Some(setting) = first.after(alloc, asking.wish)? {
            let copy = setting.copy(alloc)?;
            let _ = copy.commands(b"", &mut commands)?;
        }
    }
    Ok(commands)
}

/// Sends the commands that wait, of which the first is PING, and gives the client the reply to it.
fn pong(
    alloc: Global,
    proxy: &mut Proxy,
    line: &mut ServerLine,
    client: &Client,
) -> Result<(), AllocError> {
    let mut server = MemorySink::new(alloc, 100, 100)?;
    let _ = proxy.send(line, &mut server);
    if proxy.from_server(line, b"+PONG\r\n").is_err() {
        return Err(AllocError);
    }
    let mut writer = MemorySink::new(alloc, 100, 100)?;
    let _ = proxy.give(client, &mut writer);
    Ok(())
}

/// Returns whether each of these clients was replied to if bytes wait for it.
fn is_told(alloc: Global, proxy: &mut Proxy, clients: [&Client; 2]) -> Result<bool, AllocError> {
    let mut told = Vec::new(alloc);
    while let Some(who) = proxy.next_replied() {
        told.push(who)?;
    }
    let mut is_told = true;
    for client in clients {
        let mut writer = MemorySink::new(alloc, 100, 100)?;
        let _ = proxy.give(client, &mut writer);
        is_told &= writer.bytes().is_empty() || told.contains(&client.id());
    }
    Ok(is_told)
}

/// A reply, and the loss of the connection while a command waits.
pub(crate) fn of_server(alloc: Global) -> Outcome {
    let Ok((mut proxy, mut line, mut first, mut second)) = two_clients(alloc) else {
        return Outcome::OutOfMemory;
    };
    for client in [&mut first, &mut second] {
        if proxy.from_client(client, PING).is_err() {
            return Outcome::OutOfMemory;
        }
    }
    let Ok(mut server) = MemorySink::new(alloc, 100, 100) else {
        return Outcome::OutOfMemory;
    };
    let _ = proxy.send(&line, &mut server);
    let mut refused = proxy.from_server(&mut line, b"+PONG\r\n+P").is_err();
    if proxy.lose(&mut line).is_err() {
        refused = true;
        if proxy.lose(&mut line).is_err() {
            return Outcome::Wrong;
        }
    }
    let Ok(is_told) = is_told(alloc, &mut proxy, [&first, &second]) else {
        return Outcome::OutOfMemory;
    };
    let holds = is_told && proxy.waiting(&line) == 0 && proxy.from_client(&mut first, PING).is_ok();
    if refused {
        Outcome::refused(holds)
    } else {
        Outcome::of(holds)
    }
}

/// A probe, whose reply is expected only if the probe was queued.
pub(crate) fn of_probe(alloc: Global) -> Outcome {
    let Ok((mut proxy, mut line)) = one_line(alloc) else {
        return Outcome::OutOfMemory;
    };
    let mut refused = proxy.open_prober(&mut line).is_err();
    if refused && proxy.open_prober(&mut line).is_err() {
        return Outcome::Wrong;
    }
    if proxy.probe(&mut line, &[b'x'; 32]).is_err() {
        refused = true;
        if proxy.waiting(&line) != 0 || proxy.probe(&mut line, &[b'y'; 32]).is_err() {
            return Outcome::Wrong;
        }
    }
    let Ok(mut server) = MemorySink::new(alloc, 100, 100) else {
        return Outcome::OutOfMemory;
    };
    let _ = proxy.send(&line, &mut server);
    let Some(word) = server.bytes().get(19..) else {
        return Outcome::Wrong;
    };
    let taken = match proxy.from_server(&mut line, b"$32\r\n") {
        Ok(()) => proxy.from_server(&mut line, word),
        Err(error) => Err(error),
    };
    proxy.settle_probes(&mut line);
    match taken {
        Ok(()) if proxy.waiting(&line) == 0 && refused => Outcome::OutOfMemory,
        Ok(()) if proxy.waiting(&line) == 0 => Outcome::Whole,
        Ok(()) | Err(ServerError::OutOfStep) => Outcome::Wrong,
        // The reply is lost with its connection.
        Err(_) => Outcome::refused(
            !refused && proxy.lose(&mut line).is_ok() && proxy.waiting(&line) == 0,
        ),
    }
}

/// A reply in three pieces, with the beginning of the next. After a failed allocation nobody has the
/// reply, and the command still waits.
pub(crate) fn of_reply(alloc: Global) -> Outcome {
    let Ok((mut proxy, mut line, mut first, _)) = two_clients(alloc) else {
        return Outcome::OutOfMemory;
    };
    let Ok(mut sink) = MemorySink::new(alloc, 100, 100) else {
        return Outcome::OutOfMemory;
    };
    if proxy.from_client(&mut first, PING).is_err() {
        return Outcome::refused(proxy.unsent(&line) == 0 && proxy.waiting(&line) == 0);
    }
    let _ = proxy.send(&line, &mut sink);
    for piece in [b"$20\r\n01".as_slice(), b"2345678901234567", b"89\r\n"] {
        match proxy.from_server(&mut line, piece) {
            Ok(()) => {}
            Err(ServerError::Frame(FrameError::OutOfMemory) | ServerError::OutOfMemory) => {
                let stands = proxy.waiting(&line) == 1 && proxy.unread(&first) == 0;
                return Outcome::refused(stands && proxy.lose(&mut line).is_ok());
            }
            Err(_) => return Outcome::Wrong,
        }
    }
    Outcome::of(proxy.waiting(&line) == 0 && proxy.unread(&first) == 27)
}

/// A connection that is brought into version 3. After a failed allocation it is not used.
pub(crate) fn of_opening(alloc: Global) -> Outcome {
    let Ok(mut setting) = Setting::first(alloc) else {
        return Outcome::OutOfMemory;
    };
    setting.version = Version::Three;
    let Ok(mut opening) = Opening::new(alloc, &setting, b"", Ending::Setting) else {
        return Outcome::OutOfMemory;
    };
    let Ok(mut sink) = MemorySink::new(alloc, 100, 100) else {
        return Outcome::OutOfMemory;
    };
    // A cut reply, which is held.
    let mut source = MemorySource::new(b"%1\r\n$5\r\nproto\r\n:3\r\n", 9);
    for _ in 0..9 {
        match opening.visit(&mut source, &mut sink, &mut [0; 64]) {
            Ok(OpeningProgress::Accepted) => {
                return Outcome::of(opening.hello().starts_with(b"%1") && sink.bytes().len() == 22);
            }
            Ok(_) => {}
            Err(OpeningError::OutOfMemory) => {
                let again = opening.visit(&mut source, &mut sink, &mut [0; 64]);
                let is_same = again == Err(OpeningError::OutOfMemory);
                return Outcome::refused(is_same && !opening.is_accepted());
            }
            Err(_) => return Outcome::Wrong,
        }
    }
    Outcome::Wrong
}

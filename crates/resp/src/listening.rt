//! The commands `serve`, `tap` and `proxy`, which listen on an address for clients.

use crate::checking::run_check;
use crate::failures::Faults;
use crate::hosts::{addresses_of, backend_of, listening_on, name_of, password_of, refuse_server};
use crate::learning::Learning;
use crate::most_clients::{SERVE, TAP, descriptors_of_proxy, most_clients};
use crate::replaying::run_replay;
use crate::style::style_of;
use crate::swapped::write_order_hint;
use resp_cli_args::cutting::{Cutting, cutting_of};
use resp_cli_args::duration::duration_of;
use resp_cli_args::listen_address::ListenAddress;
use resp_cli_args::proxying::{ProxyOptions, Proxying};
use resp_cli_args::server_address::ServerAddress;
use resp_cli_args::serving::Serving;
use resp_cli_args::tapping::{FilterOptions, StatsOptions, Tapping};
use resp_cli_args::tool_error::ToolError;
use resp_cli_args::traffic::{Route, Traffic};
use resp_cli_args::words::stop;
use resp_commands::entry;
use resp_io::device::Sink;
use resp_io::live::LiveSink;
use resp_net::cutter::Cut;
use resp_net::{Address, Backend};
use resp_paint::{Painted, Style};
use resp_print::text::write_text;
use resp_proxy_net::{ProxyServer, ProxySettings};
use resp_server_net::{Server, ServerSettings, Store, StoreServer, TestServer};
use resp_tap::Filter;
use resp_tap::json_line::write_listening_json;
use resp_tap_net::{AfterFailure, Tables, TapSettings, Window};
use std::alloc::{AllocError, Global};
use std::hash::RandomState;
use std::io::{self, ErrorKind, Write};
use std::time::Duration;

/// The exit status of a usage error.
const BAD_ARGUMENTS: u8 = 2;

/// The exit status after a failed device.
const DEVICE_FAILED: u8 = 3;

/// The error of `tap` with `--json` and a table of counts.
const NO_JSON_OF_TABLES: &[u8] =
    b"error: the argument '--json' cannot be used with '--stats' or '--stats-every <TIME>'\n\n\
    For more information, try '--help'.\n";

/// The error of `tap` with a capture and `--cut`.
const NO_CUT_OF_CAPTURES: &[u8] =
    b"error: the argument '--cut <CUT>' cannot be used with '--replay <FILE>'\n\n\
    For more information, try '--help'.\n";

/// The error of a text that says no cuts, after the text.
const BAD_CUT: &[u8] =
    b"' for '--cut <CUT>': expected a number from 1 to 65536, or random: and a seed, such as random:7";

/// The error of a text that is not a duration, after the text.
const BAD_DURATION: &[u8] =
    b"' for '--slower <TIME>': expected a time with a unit (us, ms, s, m or h), such as 10ms";

/// Why the program stops listening for clients.
#[derive(Drop)]
enum ListenError {
    /// Listening on the address, or a connection to it, failed.
    Address(io::Error),
    /// The file to be written can't be created.
    File(io::Error),
    /// Another device or an allocation failed.
    Tool(ToolError),
}

impl From<io::Error> for ListenError {
    fn from(error: io::Error) -> Self {
        ListenError::Address(error)
    }
}

impl From<AllocError> for ListenError {
    fn from(_: AllocError) -> Self {
        ListenError::Tool(ToolError::Memory)
    }
}

impl From<ToolError> for ListenError {
    fn from(error: ToolError) -> Self {
        ListenError::Tool(error)
    }
}

/// Serves clients at the address in the words. Returns the status if that fails.
pub(crate) fn run_serve<W: LiveSink>(
    rt: &HostRuntime,
    serving: &Serving<'_>,
    writer: &mut W,
    faults: &mut Faults<'_>,
) -> Result<u8, AllocError> {
    match serve(rt, serving, writer) {
        Ok(()) => Ok(0),
        Err(error) => refuse(rt.alloc(), serving.address_text, &error, faults),
    }
}

/// Serves clients until that fails, or until the server has drained. A server for tests has 16 databases.
fn serve<W: LiveSink>(
    rt: &HostRuntime,
    serving: &Serving<'_>,
    writer: &mut W,
) -> Result<(), ListenError> {
    let alloc = rt.alloc();
    let Ok(hasher) = RandomState::new(rt) else {
        return Err(ToolError::Read.into());
    };
    let settings = ServerSettings {
        limits: serving.limits,
        most: most_clients(rt, serving.clients, SERVE),
        held: serving.held,
        drain_timeout: Duration::from_micros(serving.drain_timeout),
        torture: (serving.torture > 0).then_some(serving.torture),
    };
    let address = listening_on(alloc, &serving.address)?;
    if serving.is_test_server {
        let mut server = TestServer::listen(rt, alloc, &address, settings, hasher)?;
        let ended = run_server(rt, &mut server, writer);
        drop(server);
        return ended;
    }
    let mut server = Server::listen(rt, alloc, &address, settings, hasher)?;
    let ended = run_server(rt, &mut server, writer);
    drop(server);
    ended
}

/// Shows the address of a server, and runs it.
fn run_server<C: Drop, T: Store<C> + Drop, W: LiveSink>(
    rt: &HostRuntime,
    server: &mut StoreServer<C, T>,
    writer: &mut W,
) -> Result<(), ListenError> {
    announce(rt.alloc(), &server.address()?, writer)?;
    Ok(server.run(rt)?)
}

/// Runs the tap between clients and the server in the words. Returns the status when it has ended.
pub(crate) fn run_tap<W: LiveSink>(
    rt: &HostRuntime,
    tapping: &Tapping<'_>,
    writer: &mut Painted<W>,
    faults: &mut Faults<'_>,
) -> Result<u8, AllocError> {
    let Some(style) = style_of(rt, &tapping.style, faults) else {
        return Ok(BAD_ARGUMENTS);
    };
    let slower = tapping.filter.slower.and_then(duration_of);
    if let (Some(text), None) = (tapping.filter.slower, slower) {
        let _ = faults.write_bad_value(text, BAD_DURATION);
        return Ok(BAD_ARGUMENTS);
    }
    if tapping.style.json && tables_of(tapping.stats).is_some() {
        let _ = write_text(&mut faults.lines, NO_JSON_OF_TABLES);
        return Ok(BAD_ARGUMENTS);
    }
    if !is_cut_right(tapping, faults) {
        return Ok(BAD_ARGUMENTS);
    }
    match &tapping.traffic {
        Traffic::Live(route) => run_window(rt, tapping, route, slower, style, writer, faults),
        Traffic::Captured(captured) => {
            writer.set_style(style);
            run_replay(rt, tapping, captured, slower, writer, faults)
        }
    }
}

/// Returns whether `--cut` is not given or says where the bytes of a server are cut. If it is wrong,
/// writes why.
fn is_cut_right(tapping: &Tapping<'_>, faults: &mut Faults<'_>) -> bool {
    let Some(text) = tapping.cut else {
        return true;
    };
    if cutting_of(text).is_none() {
        let _ = faults.write_bad_value(text, BAD_CUT);
        return false;
    }
    if let Traffic::Captured(_) = tapping.traffic {
        let _ = write_text(&mut faults.lines, NO_CUT_OF_CAPTURES);
        return false;
    }
    true
}

/// Returns where the bytes of a server are cut.
fn cut_of(text: &str) -> Option<Cut> {
    Some(match cutting_of(text)? {
        Cutting::Every(size) => Cut::Every(size),
        Cutting::Random(seed) => Cut::Random(seed),
    })
}

/// Runs the tap between clients and a server. Returns the status when it has ended.
fn run_window<W: LiveSink>(
    rt: &HostRuntime,
    tapping: &Tapping<'_>,
    route: &Route<'_>,
    slower: Option<u64>,
    style: Style,
    writer: &mut Painted<W>,
    faults: &mut Faults<'_>,
) -> Result<u8, AllocError> {
    let addresses = match addresses_of(rt, rt.alloc(), &route.server) {
        Ok(addresses) => addresses,
        Err(error) => return refuse_server(rt.alloc(), &route.server, &error, faults),
    };
    let backend = Backend::new(name_of(rt.alloc(), &route.server)?, addresses);
    match tap(rt, tapping, route, backend, slower, style, writer) {
        Ok(status) => Ok(status),
        Err(ListenError::File(error)) => {
            faults.refuse_opening(rt.alloc(), route.record.unwrap_or(""), &error)
        }
        Err(error) => {
            let status = refuse(rt.alloc(), route.address_text, &error, faults)?;
            tell_order(rt, &route.address, &route.server, &error, faults)?;
            Ok(status)
        }
    }
}

/// Returns the filter that the options ask for.
pub(crate) fn filter_of(
    alloc: Global,
    options: &FilterOptions<'_>,
    slower: Option<u64>,
) -> Result<Filter, AllocError> {
    let mut filter = Filter::all(alloc);
    filter.errors = options.errors;
    filter.slower = slower;
    filter.connections = options.connections;
    if options.client > 0 {
        filter.client = Some(options.client);
    }
    if let Some(glob) = options.key {
        filter.key = Some(Vec::from_slice(alloc, glob.as_bytes())?);
    }
    for name in options.names.unwrap_or("").split(',') {
        if !name.is_empty() {
            filter.names.push(Vec::from_slice(alloc, name.as_bytes())?)?;
        }
    }
    Ok(filter)
}

/// Returns when tables are printed, if commands are counted.
pub(crate) fn tables_of(stats: StatsOptions) -> Option<Tables> {
    if stats.every > 0 {
        return Some(Tables::Every(Duration::from_micros(stats.every)));
    }
    stats.is_on.then_some(Tables::AtEnd)
}

/// Returns whether `tap` prints times. `is_slow` says whether it prints only slow commands.
pub(crate) fn tells_time(tapping: &Tapping<'_>, is_slow: bool) -> bool {
    tapping.tells_time || tapping.tells_date || is_slow || tapping.style.json
}

/// Returns what the words ask for after a failed write. `--exit-with-output` has precedence.
fn after_failure(tapping: &Tapping<'_>) -> AfterFailure {
    if tapping.exits_with_output {
        AfterFailure::End
    } else if tapping.keeps_going {
        AfterFailure::KeepGoing
    } else {
        AfterFailure::Finish
    }
}

/// Runs the tap between clients and a server until that fails, until its output has failed and all
/// connections are closed, or until a person ends it. Returns the status.
fn tap<W: LiveSink>(
    rt: &HostRuntime,
    tapping: &Tapping<'_>,
    route: &Route<'_>,
    backend: Backend,
    slower: Option<u64>,
    style: Style,
    writer: &mut Painted<W>,
) -> Result<u8, ListenError> {
    let alloc = rt.alloc();
    let Ok(filter) = filter_of(alloc, &tapping.filter, slower) else {
        return Err(ToolError::Memory.into());
    };
    let settings = settings_of_window(rt, tapping, slower.is_some(), style);
    let address = listening_on(alloc, &route.address)?;
    let mut window = Window::listen(rt, alloc, &address, backend, settings, filter)?;
    let ended = watch(rt, tapping, route, style, &mut window, writer);
    drop(window);
    ended
}

/// Returns the settings that the options of `tap` ask for.
fn settings_of_window(
    rt: &HostRuntime,
    tapping: &Tapping<'_>,
    is_slow: bool,
    style: Style,
) -> TapSettings {
    TapSettings {
        limits: tapping.limits,
        most: most_clients(rt, tapping.clients, TAP),
        drain_timeout: Duration::from_micros(tapping.drain_timeout),
        cut: tapping.cut.and_then(cut_of),
        tells_time: tells_time(tapping, is_slow),
        tells_date: tapping.tells_date,
        after_failure: after_failure(tapping),
        reads_lines: !tapping.refuses_lines,
        shows_passwords: tapping.shows_passwords,
        shown: tapping.shown,
        json: tapping.style.json,
        tables: tables_of(tapping.stats),
        style,
    }
}

/// Runs a window until that fails, until its output has failed and all connections are closed, or
/// until a person ends it. Returns the status.
fn watch<W: LiveSink>(
    rt: &HostRuntime,
    tapping: &Tapping<'_>,
    route: &Route<'_>,
    style: Style,
    window: &mut Window,
    writer: &mut Painted<W>,
) -> Result<u8, ListenError> {
    record(rt, window, route.record)?;
    if !window.may_wait() {
        writer.set_style(style);
    }
    write_tapping(rt.alloc(), &window.address()?, tapping.style.json, writer)?;
    match window.run(rt, writer) {
        Err(error) if error.kind() == ErrorKind::WriteZero => Err(ToolError::Write.into()),
        Err(error) if error.kind() == ErrorKind::Interrupted => Ok(0),
        Err(error) => Err(error.into()),
        // The failed write was reported then.
        Ok(()) if window.is_silent() => Ok(DEVICE_FAILED),
        Ok(()) => Ok(0),
    }
}

/// Creates the file to which the traffic is written, if there is one.
fn record(rt: &HostRuntime, window: &mut Window, file: Option<&str>) -> Result<(), ListenError> {
    let Some(file) = file else {
        return Ok(());
    };
    window
        .record(rt, file)
        .map_err(|error| ListenError::File(error))
}

/// Runs the proxy between clients and the server in the words, or checks the commands of the server.
/// Returns the status when it has ended.
pub(crate) fn run_proxy<W: LiveSink>(
    rt: &HostRuntime,
    proxying: &Proxying<'_>,
    writer: &mut W,
    faults: &mut Faults<'_>,
) -> Result<u8, AllocError> {
    warn_of_known(rt, proxying.also);
    if proxying.checks {
        return check(rt, proxying, writer, faults);
    }
    let backend = backend_of(rt, &proxying.server)?;
    match proxy(rt, proxying, backend, writer) {
        Ok(()) => Ok(0),
        Err(error) => {
            let status = refuse(rt.alloc(), proxying.address_text, &error, faults)?;
            tell_order(rt, &proxying.address, &proxying.server, &error, faults)?;
            Ok(status)
        }
    }
}

/// Checks the commands of the server in the words. Returns the status.
fn check<W: LiveSink>(
    rt: &HostRuntime,
    proxying: &Proxying<'_>,
    writer: &mut W,
    faults: &mut Faults<'_>,
) -> Result<u8, AllocError> {
    let addresses = match addresses_of(rt, rt.alloc(), &proxying.server) {
        Ok(addresses) => addresses,
        Err(error) => return refuse_server(rt.alloc(), &proxying.server, &error, faults),
    };
    let name = name_of(rt.alloc(), &proxying.server)?;
    run_check(
        rt,
        proxying,
        name.as_str(),
        addresses.as_slice(),
        writer,
        faults,
    )
}

/// Runs the proxy between clients and a server until that fails.
fn proxy<W: LiveSink>(
    rt: &HostRuntime,
    proxying: &Proxying<'_>,
    backend: Backend,
    writer: &mut W,
) -> Result<(), ListenError> {
    let alloc = rt.alloc();
    let settings = settings_of(rt, &proxying.options);
    let Ok(login) = login_of(rt) else {
        return Err(ToolError::Memory.into());
    };
    let address = listening_on(alloc, &proxying.address)?;
    let mut server = ProxyServer::listen(rt, alloc, &address, backend, login, settings)?;
    let ended = share(rt, proxying, &mut server, writer);
    drop(server);
    ended
}

/// Runs a proxy until that fails.
fn share<W: LiveSink>(
    rt: &HostRuntime,
    proxying: &Proxying<'_>,
    server: &mut ProxyServer,
    writer: &mut W,
) -> Result<(), ListenError> {
    if admit(server, proxying.also).is_err() {
        return Err(ToolError::Memory.into());
    }
    let mut learning = Learning::new(rt, proxying);
    learning.begin(server)?;
    match announce(rt.alloc(), &server.address()?, writer) {
        // The proxy serves clients although nobody reads its output.
        Ok(()) | Err(ToolError::Write) => {}
        Err(error) => return Err(error.into()),
    }
    Ok(server.run(rt, rt.stdin(), writer, learning)?)
}

/// Prints on standard error the names, between commas, that the table of commands has.
fn warn_of_known(rt: &HostRuntime, names: Option<&str>) {
    for name in names.unwrap_or("").split(',') {
        if entry(name.as_bytes()).is_some() {
            let line = format!(in rt.alloc();
                "--also {name} changes nothing, since the proxy knows this command\n"
            );
            if let Ok(line) = line {
                let _ = rt.stderr().write_all(line.as_str().as_bytes());
            }
        }
    }
}

/// Admits the commands of these names, between commas.
fn admit(server: &mut ProxyServer, names: Option<&str>) -> Result<(), AllocError> {
    for name in names.unwrap_or("").split(',') {
        if !name.is_empty() {
            server.admit(name.as_bytes())?;
        }
    }
    Ok(())
}

/// Returns the command AUTH with the password of the environment, or no byte if there is no password.
fn login_of(rt: &HostRuntime) -> Result<Vec<u8>, AllocError> {
    let alloc = rt.alloc();
    let Some(password) = password_of(rt) else {
        return Ok(Vec::new(alloc));
    };
    let word = password.as_str();
    let command = format!(in alloc; "*2\r\n$4\r\nAUTH\r\n${}\r\n{word}\r\n", word.len())?;
    Ok(command.into_bytes())
}

/// Returns the settings that the options of `proxy` ask for.
fn settings_of(rt: &HostRuntime, options: &ProxyOptions) -> ProxySettings {
    let times = options.times;
    ProxySettings {
        proxy: resp_proxy::Settings {
            limits: options.limits,
            waiting: options.waiting,
            held: options.held,
            unsent: options.unsent,
            local_ping: options.local_ping,
            lines: !options.refuses_lines,
        },
        most: most_clients(rt, options.clients, descriptors_of_proxy(options)),
        own: options.own,
        unread: options.unread,
        lines: options.lines,
        patience: Duration::from_micros(times.server_timeout),
        report: (times.report > 0).then_some(Duration::from_micros(times.report)),
        drains: options.drains,
        drain_timeout: Duration::from_micros(times.drain_timeout),
        check_every: options.check_every,
    }
}

/// Shows the address on which the program listens.
fn announce<W: LiveSink>(
    alloc: Global,
    address: &Address,
    writer: &mut W,
) -> Result<(), ToolError> {
    write_listening(alloc, address, writer)?;
    writer.flush().map_err(|_| ToolError::Write)
}

/// Prints the address on which the program listens.
fn write_listening<W: Sink>(
    alloc: Global,
    address: &Address,
    writer: &mut W,
) -> Result<(), ToolError> {
    let Ok(line) = format!(in alloc; "listening on {address}\n") else {
        return Err(ToolError::Memory);
    };
    write_text(writer, line.as_str().as_bytes()).map_err(|_| ToolError::Write)
}

/// Prints the address on which the tap listens, as JSON or as text.
fn write_tapping<W: Sink>(
    alloc: Global,
    address: &Address,
    json: bool,
    writer: &mut W,
) -> Result<(), ToolError> {
    if !json {
        return write_listening(alloc, address, writer);
    }
    let Ok(text) = format!(in alloc; "{address}") else {
        return Err(ToolError::Memory);
    };
    write_listening_json(text.as_str().as_bytes(), writer).map_err(|_| ToolError::Write)
}

/// Reports why the program cannot listen on this address, and returns the status.
fn refuse(
    alloc: Global,
    address: &str,
    error: &ListenError,
    faults: &mut Faults<'_>,
) -> Result<u8, AllocError> {
    match error {
        ListenError::Address(error) | ListenError::File(error) => {
            faults.refuse_opening(alloc, address, error)
        }
        ListenError::Tool(error) => Ok(stop(error, &mut faults.lines)),
    }
}

/// Writes below the line of an error that the addresses may be swapped, if they seem to be.
fn tell_order(
    rt: &HostRuntime,
    listen: &ListenAddress<'_>,
    server: &ServerAddress<'_>,
    error: &ListenError,
    faults: &mut Faults<'_>,
) -> Result<(), AllocError> {
    match error {
        ListenError::Address(error) => write_order_hint(rt, listen, server, error, faults),
        _ => Ok(()),
    }
}

//! The end of a plain reply, by a call that fills no nodes.

use super::check_equal;
use resp_flat::plain_end;
use resp_value::limits::Limits;
use resp_value::version::Version;
use std::process::Abort;

/// Looks for the end of the reply at the beginning of some bytes.
fn check(rt: &impl Abort, version: Version, bytes: &[u8], wanted: Option<usize>) {
    let limits = Limits::standard().with_doubles(true);
    check_equal(rt, plain_end(version, &limits, bytes), wanted);
}

#[test]
fn a_plain_reply_ends_after_its_last_byte(rt: HostRuntime) {
    for (bytes, end) in [
        (b"+OK\r\n:1\r\n".as_slice(), 5),
        (b":-7\r\n", 5),
        (b",1.5\r\n", 6),
        (b"$3\r\na\r\n\r\n+", 9),
        (b"=5\r\ntxt:a\r\n", 11),
        (b"*2\r\n:1\r\n$-1\r\n+x", 13),
        (b"%1\r\n+k\r\n_\r\n", 11),
        (b"|1\r\n+k\r\n#t\r\n~0\r\n", 16),
        (b">1\r\n*0\r\n", 8),
    ] {
        check(&rt, Version::Three, bytes, Some(end));
    }
}

#[test]
fn a_reply_that_is_not_whole_has_no_end(rt: HostRuntime) {
    let reply = b"*2\r\n:1\r\n$2\r\nab\r\n";
    for cut in 0..reply.len() {
        check(&rt, Version::Two, &reply[..cut], None);
    }
    check(&rt, Version::Two, reply, Some(reply.len()));
}

#[test]
fn a_reply_that_is_not_plain_has_no_end(rt: HostRuntime) {
    for bytes in [
        b":+1\r\n".as_slice(),
        b"(1\r\n",
        b"*?\r\n.\r\n",
        b"$?\r\n;0\r\n",
        b":x\r\n",
        b"*1\r\n>0\r\n",
    ] {
        check(&rt, Version::Three, bytes, None);
    }
    check(&rt, Version::Two, b"_\r\n", None);
    check(&rt, Version::Two, b"~0\r\n", None);
}

#[test]
fn at_most_16_aggregates_are_inside_one_another(rt: HostRuntime) {
    let reply =
        b"*1\r\n*1\r\n*1\r\n*1\r\n*1\r\n*1\r\n*1\r\n*1\r\n*1\r\n*1\r\n*1\r\n*1\r\n*1\r\n*1\r\n*1\r\n*1\r\n*1\r\n:1\r\n";
    check(&rt, Version::Two, &reply[4..], Some(68));
    check(&rt, Version::Two, reply, None);
}

//! Flat replies: each kind of value, several replies, and why a call reads no further one.

use super::check_equal;
use resp_flat::{InPlaceStop, Node, read_in_place};
use resp_scan::event::Fault;
use resp_value::cause::Cause;
use resp_value::limits::Limits;
use resp_value::version::Version;
use std::process::Abort;

/// The kind, the form, the number, the place and the length of a node, and its size.
type Row = (u8, u8, i64, usize, usize, usize);

fn row(node: &Node) -> Row {
    (
        node.kind,
        node.form,
        node.number,
        node.start,
        node.length,
        node.size,
    )
}

/// A node before a call.
const UNFILLED: Node = Node {
    kind: 0,
    form: 0,
    format: [0; 3],
    number: 0,
    start: 0,
    length: 0,
    size: 0,
};

/// Reads a buffer into so many nodes, and compares the nodes, the number of bytes and the reason.
fn check(
    rt: &impl Abort,
    buffer: &[u8],
    room: usize,
    rows: &[Row],
    used: usize,
    stop: InPlaceStop,
) {
    let mut filled = [UNFILLED; 16];
    let limits = Limits::standard().with_doubles(true);
    let read = read_in_place(Version::Three, &limits, buffer, &mut filled[..room]);
    check_equal(rt, (read.nodes, read.used), (rows.len(), used));
    check_equal(rt, read.stop, stop);
    for (node, wanted) in filled.iter().zip(rows) {
        check_equal(rt, row(node), *wanted);
    }
}

#[test]
fn each_kind_has_its_node(rt: HostRuntime) {
    let lines = b"+OK\r\n-no\r\n:-7\r\n_\r\n#t\r\n,1.5\r\n";
    let rows = [
        (4, 0, 0, 1, 2, 1),
        (4, 1, 0, 6, 2, 1),
        (3, 0, -7, 0, 0, 1),
        (1, 0, 0, 0, 0, 1),
        (2, 0, 1, 0, 0, 1),
        (4, 2, 0, 23, 3, 1),
    ];
    check(&rt, lines, 6, &rows, lines.len(), InPlaceStop::Incomplete);
    let strings = b"$2\r\n\r\n\r\n!1\r\nE\r\n=5\r\ntxt:a\r\n$-1\r\n";
    let rows = [
        (4, 3, 0, 4, 2, 1),
        (4, 4, 0, 12, 1, 1),
        (4, 5, 0, 23, 1, 1),
        (1, 0, 0, 0, 0, 1),
    ];
    check(
        &rt,
        strings,
        16,
        &rows,
        strings.len(),
        InPlaceStop::Incomplete,
    );
    let others = b"$0\r\n\r\n#f\r\n*-1\r\n";
    let rows = [(4, 3, 0, 4, 0, 1), (2, 0, 0, 0, 0, 1), (1, 0, 0, 0, 0, 1)];
    check(
        &rt,
        others,
        16,
        &rows,
        others.len(),
        InPlaceStop::Incomplete,
    );
}

#[test]
fn a_verbatim_string_has_its_format(rt: HostRuntime) {
    let mut filled = [Node::default(); 2];
    let text = b"=5\r\nmkd:a\r\n+b\r\n";
    let read = read_in_place(Version::Three, &Limits::standard(), text, &mut filled);
    check_equal(&rt, (read.nodes, read.used), (2, text.len()));
    check_equal(&rt, filled[0].format, *b"mkd");
    check_equal(&rt, filled[1].format, [0; 3]);
}

#[test]
fn members_follow_their_aggregate(rt: HostRuntime) {
    let map = b"%1\r\n+k\r\n*2\r\n:1\r\n~0\r\n>0\r\n";
    let rows = [
        (7, 2, 0, 0, 2, 5),
        (4, 0, 0, 5, 1, 1),
        (7, 0, 0, 0, 2, 3),
        (3, 0, 1, 0, 0, 1),
        (7, 1, 0, 0, 0, 1),
        (7, 4, 0, 0, 0, 1),
    ];
    check(&rt, map, 6, &rows, map.len(), InPlaceStop::Incomplete);
    check(&rt, map, 5, &rows[..5], 20, InPlaceStop::NoNodes);
    let nested = b"*3\r\n:1\r\n~2\r\n+a\r\n$2\r\nbc\r\n*0\r\n";
    let rows = [
        (7, 0, 0, 0, 3, 6),
        (3, 0, 1, 0, 0, 1),
        (7, 1, 0, 0, 2, 3),
        (4, 0, 0, 13, 1, 1),
        (4, 3, 0, 20, 2, 1),
        (7, 0, 0, 0, 0, 1),
    ];
    check(&rt, nested, 6, &rows, nested.len(), InPlaceStop::Incomplete);
}

#[test]
fn the_value_is_the_last_member_of_its_attribute(rt: HostRuntime) {
    let attribute = b"|1\r\n+a\r\n:1\r\n+v\r\n";
    let rows = [
        (7, 3, 0, 0, 3, 4),
        (4, 0, 0, 5, 1, 1),
        (3, 0, 1, 0, 0, 1),
        (4, 0, 0, 13, 1, 1),
    ];
    check(
        &rt,
        attribute,
        4,
        &rows,
        attribute.len(),
        InPlaceStop::Incomplete,
    );
}

#[test]
fn a_reason_is_true_of_the_bytes_left(rt: HostRuntime) {
    let one = [(3, 0, 1, 0, 0, 1)];
    check(&rt, b"", 0, &[], 0, InPlaceStop::Incomplete);
    check(&rt, b":1\r\n$2\r\na", 9, &one, 4, InPlaceStop::Incomplete);
    check(&rt, b":1\r\n:2\r\n", 1, &one, 4, InPlaceStop::NoNodes);
    check(&rt, b":1\r\n(2\r\n", 9, &one, 4, InPlaceStop::NotPlain);
    check(&rt, b":1\r\n*?\r\n.\r\n", 9, &one, 4, InPlaceStop::NotPlain);
    let chunks = b":1\r\n$?\r\n;1\r\na\r\n;0\r\n";
    check(&rt, chunks, 9, &one, 4, InPlaceStop::NotPlain);
    check(
        &rt,
        b":1\r\n*2\r\n:+1\r\n:2\r\n",
        1,
        &one,
        4,
        InPlaceStop::NotPlain,
    );
    check(
        &rt,
        b":1\r\n*2\r\n:1\r\n:2\r\n",
        3,
        &one,
        4,
        InPlaceStop::NoNodes,
    );
    check(
        &rt,
        b":1\r\n*2\r\n:1\r\n",
        1,
        &one,
        4,
        InPlaceStop::Incomplete,
    );
    let fault = Fault {
        cause: Cause::Syntax,
        at: 1,
    };
    check(
        &rt,
        b":1\r\n:x\r\n",
        9,
        &one,
        4,
        InPlaceStop::Refused(fault),
    );
}

/// Two replies, the first of one node and the second of three.
const TWO_REPLIES: &[u8] = b"+ab\r\n*2\r\n:1\r\n+cd\r\n";

#[test]
fn a_reply_that_has_no_room_is_not_read(rt: HostRuntime) {
    for room in 0..=4 {
        let wanted = match room {
            0 => (0, 0, InPlaceStop::NoNodes),
            1..=3 => (1, 5, InPlaceStop::NoNodes),
            _ => (4, 18, InPlaceStop::Incomplete),
        };
        let mut nodes = [Node::default(); 4];
        let limits = Limits::standard();
        let read = read_in_place(Version::Two, &limits, TWO_REPLIES, &mut nodes[..room]);
        check_equal(&rt, (read.nodes, read.used, read.stop), wanted);
    }
}

//! Equality of values, and the contents of lists.

use super::build::{value, values};
use super::check_equal;
use resp_value::value::{Members, PairList, Value};
use std::process::Abort;

/// Seventeen scalars, no two of them equal.
const SCALARS: &[u8] = b"_\r\n#f\r\n#t\r\n:7\r\n:-7\r\n+7\r\n+\r\n-7\r\n$1\r\n7\r\n$2\r\n7\r\r\n\
    !1\r\n7\r\n=5\r\ntxt:7\r\n=5\r\nmkd:7\r\n(7\r\n(-7\r\n,7\r\n,7.0\r\n";

/// Fifteen aggregates, no two of them equal.
const AGGREGATES: &[u8] = b"*0\r\n*1\r\n:1\r\n*2\r\n:1\r\n:2\r\n*2\r\n:2\r\n:1\r\n\
    *1\r\n*2\r\n:1\r\n:2\r\n~2\r\n:1\r\n:2\r\n~2\r\n:2\r\n:1\r\n>2\r\n:1\r\n:2\r\n%1\r\n:1\r\n:2\r\n\
    %2\r\n:1\r\n:2\r\n:3\r\n:4\r\n%2\r\n:3\r\n:4\r\n:1\r\n:2\r\n%2\r\n:1\r\n:2\r\n:1\r\n:2\r\n\
    |1\r\n:1\r\n:2\r\n:3\r\n|1\r\n:1\r\n:2\r\n:4\r\n|0\r\n:3\r\n";

/// Checks that each of the `count` values encoded in a text equals only itself.
fn check_each_equals_itself_alone<R: Abort + AllocGlobal>(rt: &R, text: &[u8], count: usize) {
    let (values, again) = (&values(rt, text), &values(rt, text));
    check_equal(rt, (values.len(), again.len()), (count, count));
    check_equalities(rt, values.as_slice(), again.as_slice());
}

fn check_equalities(rt: &impl Abort, values: &[Value], again: &[Value]) {
    for (i, value) in values.iter().enumerate() {
        for (j, other) in again.iter().enumerate() {
            check_equal(rt, (i, j, value == other), (i, j, i == j));
        }
    }
}

#[test]
fn scalars_equal_themselves_alone(rt: HostRuntime) {
    check_each_equals_itself_alone(&rt, SCALARS, 17);
}

#[test]
fn aggregates_equal_themselves_alone(rt: HostRuntime) {
    check_each_equals_itself_alone(&rt, AGGREGATES, 15);
}

fn check_members(rt: &impl Abort, members: Members, wanted: &[Value]) {
    check_equal(rt, members.list(), wanted);
    check_equal(rt, members.into_vec().as_slice(), wanted);
}

#[test]
fn members_keep_their_list(rt: HostRuntime) {
    let members = Members::new(values(&rt, b":1\r\n:2\r\n:1\r\n"));
    let wanted = [Value::Int(1), Value::Int(2), Value::Int(1)];
    check_members(&rt, members, &wanted);
}

fn check_pairs(rt: &impl Abort, pairs: PairList, wanted: &[(Value, Value)]) {
    check_equal(rt, pairs.list(), wanted);
    check_equal(rt, pairs.into_vec().as_slice(), wanted);
}

#[test]
fn pairs_keep_their_list(rt: HostRuntime) {
    match value(&rt, b"%2\r\n:1\r\n:2\r\n:1\r\n:3\r\n") {
        Value::Map(pairs) => {
            let wanted = [
                (Value::Int(1), Value::Int(2)),
                (Value::Int(1), Value::Int(3)),
            ];
            check_pairs(&rt, PairList::new(pairs.into_vec()), &wanted);
        }
        _ => panic!(rt; "no map"),
    }
}

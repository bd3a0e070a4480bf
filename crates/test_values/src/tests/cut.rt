//! Values of which the first bytes of each text are kept: they have the lines of the whole values.

use super::check_equal;
use resp_decode::{CutDecoder, decode_all};
use resp_io::device::MemorySink;
use resp_print::value::{write_cut_push_value, write_cut_value, write_push_value, write_value};
use resp_value::CutValue;
use resp_value::limits::Limits;
use resp_value::value::Value;
use resp_value::version::Version;
use std::process::Abort;

/// Texts of one value each.
const TEXTS: [&[u8]; 7] = [
    b"$12\r\nhello, world\r\n",
    b"*3\r\n$3\r\nabc\r\n:7\r\n-ERR no\r\n",
    b"%2\r\n+key\r\n$0\r\n\r\n_\r\n~2\r\n=9\r\ntxt:12345\r\n!2\r\nno\r\n",
    b"|1\r\n+ttl\r\n:3600\r\n*2\r\n$4\r\n\x00\xff\r\n\r\n|1\r\n+deep\r\n#t\r\n+word\r\n",
    b">2\r\n$7\r\nmessage\r\n*2\r\n$5\r\n\"\\\t\r\n\r\n(-12345678901234567890\r\n",
    b"*?\r\n$?\r\n;2\r\nab\r\n;3\r\ncde\r\n;0\r\n+f\r\n.\r\n",
    b"*2\r\n,3.14159\r\n*0\r\n",
];

fn sink<R: Abort + AllocGlobal>(rt: &R) -> MemorySink {
    MemorySink::new(rt.alloc(), 7, 4_096).expect(rt, "out of memory")
}

fn limits() -> Limits {
    Limits::standard().with_doubles(true)
}

/// Returns the cut value of a text that arrives byte by byte.
fn cut<R: Abort + AllocGlobal>(rt: &R, text: &[u8], shown: usize) -> CutValue {
    let mut decoder = CutDecoder::new(rt.alloc(), Version::Three, &limits(), shown);
    let mut last = None;
    for byte in text {
        last = decoder.feed(&[*byte]).expect(rt, "a fault").value;
    }
    last.expect(rt, "no value")
}

/// Checks that the lines of the cut value are those of the whole value, in the middle of an array.
fn check_lines<R: Abort + AllocGlobal>(rt: &R, text: &[u8], shown: usize) {
    let values = decode_all(rt.alloc(), Version::Three, &limits(), text).expect(rt, "a fault");
    let cut = cut(rt, text, shown);
    for whole in values.as_slice() {
        let (mut wanted, mut written) = (sink(rt), sink(rt));
        match (whole, &cut.value) {
            (Value::Push(members), Value::Push(kept)) => {
                let lengths = cut.lengths.as_slice();
                write_push_value(members, 1, Some(shown), &mut wanted).expect(rt, "a fault");
                write_cut_push_value(kept, lengths, 1, shown, &mut written).expect(rt, "a fault");
            }
            (whole, kept) => {
                let lengths = cut.lengths.as_slice();
                write_value(whole, 2, Some(shown), &mut wanted).expect(rt, "a fault");
                write_cut_value(kept, lengths, 2, shown, &mut written).expect(rt, "a fault");
            }
        }
        check_equal(rt, written.bytes(), wanted.bytes());
    }
}

#[test]
fn cut_values_have_the_lines_of_whole_ones(rt: HostRuntime) {
    for text in &TEXTS {
        for shown in [0, 1, 2, 4, 5, 12, 13, 1_000] {
            check_lines(&rt, text, shown);
        }
    }
}

#[test]
fn the_length_of_each_text_is_printed(rt: HostRuntime) {
    let kept = cut(&rt, b"*3\r\n$5\r\nhello\r\n+OK\r\n!4\r\nWORD\r\n", 2);
    let mut text = sink(&rt);
    write_cut_value(&kept.value, kept.lengths.as_slice(), 0, 2, &mut text).expect(&rt, "a fault");
    let wanted = b"array\n  bulk \"he\" .. 5\n  simple \"OK\" 2\n  bulkerror \"WO\" .. 4\nend 3\n";
    check_equal(&rt, text.bytes(), wanted.as_slice());
}

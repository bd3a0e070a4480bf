//! The texts that are read and written. Each is the encoding of one value.

use std::alloc::{AllocError, Global};

/// A text: its head, a part that is repeated `count` times, and its end.
#[derive(Clone, Copy)]
pub(crate) struct Text {
    pub(crate) name: &'static str,
    head: &'static [u8],
    part: &'static [u8],
    count: usize,
    end: &'static [u8],
}

pub(crate) const SIMPLE: Text = Text {
    name: "simple OK",
    head: b"+",
    part: b"OK",
    count: 1,
    end: b"\r\n",
};

pub(crate) const INTEGER: Text = Text {
    name: "integers",
    head: b":",
    part: b"123456",
    count: 1,
    end: b"\r\n",
};

pub(crate) const LINE: Text = Text {
    name: "80-byte lines",
    head: b"+",
    part: b"x",
    count: 80,
    end: b"\r\n",
};

pub(crate) const BULK_16: Text = Text {
    name: "16-byte bulks",
    head: b"$16\r\n",
    part: b"x",
    count: 16,
    end: b"\r\n",
};

pub(crate) const BULK_1024: Text = Text {
    name: "1 KiB bulks",
    head: b"$1024\r\n",
    part: b"x",
    count: 1_024,
    end: b"\r\n",
};

pub(crate) const BULK_65536: Text = Text {
    name: "64 KiB bulks",
    head: b"$65536\r\n",
    part: b"x",
    count: 65_536,
    end: b"\r\n",
};

/// Twelve events.
pub(crate) const ARRAY_3: Text = Text {
    name: "arrays of three bulks",
    head: b"*3\r\n",
    part: b"$3\r\nxxx\r\n",
    count: 3,
    end: b"",
};

pub(crate) const ARRAY_10: Text = Text {
    name: "arrays of ten bulks",
    head: b"*10\r\n",
    part: b"$16\r\nxxxxxxxxxxxxxxxx\r\n",
    count: 10,
    end: b"",
};

/// Bulk strings of eight bytes and integers.
pub(crate) const MAP: Text = Text {
    name: "maps of ten pairs",
    head: b"%10\r\n",
    part: b"$8\r\nxxxxxxxx\r\n:7\r\n",
    count: 10,
    end: b"",
};

/// A command of two words.
pub(crate) const GET: Text = Text {
    name: "GET commands",
    head: b"*2\r\n$3\r\nGET\r\n",
    part: b"$16\r\nxxxxxxxxxxxxxxxx\r\n",
    count: 1,
    end: b"",
};

/// A command of three words.
pub(crate) const SET: Text = Text {
    name: "SET commands",
    head: b"*3\r\n$3\r\nSET\r\n",
    part: b"$16\r\nxxxxxxxxxxxxxxxx\r\n",
    count: 2,
    end: b"",
};

impl Text {
    /// Returns the bytes of the text.
    pub(crate) fn bytes(&self, alloc: Global) -> Result<Vec<u8>, AllocError> {
        let mut all = Vec::new(alloc);
        self.add_to(&mut all)?;
        Ok(all)
    }

    fn add_to(&self, all: &mut Vec<u8>) -> Result<(), AllocError> {
        all.extend_from_slice(self.head)?;
        for _ in 0..self.count {
            all.extend_from_slice(self.part)?;
        }
        all.extend_from_slice(self.end)
    }

    /// Repeats the text until there are at least `least` bytes.
    pub(crate) fn repeated(&self, alloc: Global, least: usize) -> Result<Vec<u8>, AllocError> {
        let mut all = Vec::new(alloc);
        for _ in 0..least {
            if all.len() >= least {
                break;
            }
            self.add_to(&mut all)?;
        }
        Ok(all)
    }
}

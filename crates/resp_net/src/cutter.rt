//! The places at which the bytes of one direction are cut.

ghost use Rattle.std.specs.Prelude.{◌≡◌, ◌<◌, ◌≤◌, ◌-◌};

use rand_core::utils::NextWord;
use rand_pcg::Pcg32;
use std::marker::Model;

/// The stream of the generator of random sizes.
const STREAM: u64 = 54;

/// The maximum number of bytes between two cuts at random places.
const MOST: usize = 256;

/// Where the bytes of one direction are cut.
#[derive(Clone, Copy)]
pub enum Cut {
    /// After each run of this many bytes, or of one byte if the number is 0.
    Every(usize),
    /// After runs of 1 to 256 bytes. The seed decides their sizes, and half of them have at most 8 bytes.
    Random(u64),
}

/// The sizes of the runs of bytes between two cuts.
#[derive(Drop)]
enum Sizes {
    Every(usize),
    Random(Pcg32),
}

/// The cuts in the bytes of one direction. The same [`Cut`] has the same cuts in each direction.
#[derive(Drop)]
pub struct Cutter {
    /// The maximum number of bytes between two cuts.
    most: usize,
    sizes: Sizes,
    /// The number of bytes before the next cut.
    left: usize,
}

impl Model for Cutter {
    ghost use Rattle.std.specs.Prelude.{◌<◌, ◌≤◌};
    ghost use Rattle.resp_net.specs.Cuts.{CutState};

    ghost Value = { CutState };

    ghost view = { λ c. record { most = c.most; left = c.left } };

    ghost invariant = { λ c. (0 < c.left) × (c.left ≤ c.most) };
}

impl Cutter {
    ghost use Rattle.resp_net.specs.Cuts.{most_of};

    /// Returns the cuts of a direction of which no byte was written.
    pub fn new(cut: Cut) -> Cutter
        ensures { result.most ≡ most_of cut }
    {
        let (most, sizes) = match cut {
            Cut::Every(size) => (size.max(1), Sizes::Every(size)),
            Cut::Random(seed) => (MOST, Sizes::Random(Pcg32::new(seed, STREAM))),
        };
        let mut cutter = Cutter {
            most,
            sizes,
            left: 1,
        };
        cutter.left = cutter.next_size();
        cutter
    }

    /// Returns the number of bytes before the next cut.
    pub fn left(&self) -> usize
        ensures number { result ≡ self.now.left }
        ensures some { 0 < result }
        ensures most { result ≤ self.now.most }
    {
        self.left
    }

    /// Notes that this many bytes more were written.
    pub fn advance(&mut self, count: usize)
        ensures before_the_cut { count < self.old.left → self.new.left ≡ self.old.left - count }
        ensures same { self.new.most ≡ self.old.most }
    {
        self.left = if count < self.left {
            self.left - count
        } else {
            self.next_size()
        };
    }

    /// Returns the number of bytes between the next two cuts.
    fn next_size(&mut self) -> usize
        ensures some { 0 < result }
        ensures most { result ≤ self.new.most }
        ensures same { self.new ≡ self.old }
    {
        let size = match &mut self.sizes {
            Sizes::Every(size) => *size,
            Sizes::Random(generator) => size_of(generator.next_word()),
        };
        size.clamp(1, self.most)
    }
}

/// Returns the size that a random word stands for.
fn size_of(word: u32) -> usize {
    let most = match word % 4 {
        0 => 2,
        1 => 8,
        2 => 32,
        _ => 256,
    };
    (word / 4 % most) as usize + 1
}

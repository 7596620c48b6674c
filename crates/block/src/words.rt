// The bytes of a block, and little-endian numbers and arrays of them: read and put at a place.
ghost use Rattle.std.specs.Prelude.{◌≡◌, ℕ, ◌+◌, ◌*◌, ◌≤◌, List, length, refl};
ghost use Rattle.block.specs.Places.{block_bytes};
ghost use Rattle.block.specs.Words.{le, le_bytes, numbers_at, joined, Put};

use crate::places::BLOCK_BYTES;

// All code within the crate takes a block by this type, whose length nobody has to test.
pub type Block = [u8; BLOCK_BYTES];

// A number as it stands in a block: WIDTH bytes, the low one first. read: the number at a place; bytes: those of a number.
// That a number fits where it stands is asked at each place: a type of places would hold the same two numbers, and say no more.
pub trait Number: Copy + Default {
    ghost WIDTH: { ℕ };

    const WIDTH: usize;

    ghost read: { List ℕ → ℕ → Self };

    ghost bytes: { Self → List ℕ };

    fn get(b: &Block, at: usize) -> Self
        requires { at + WIDTH ≤ block_bytes }
        ensures { result ≡ read b.now at };

    fn put(self, b: &mut Block, at: usize)
        requires { at + WIDTH ≤ block_bytes }
        ensures { Put b.old b.new (bytes self) at (at + WIDTH) };

    // Each number has as many bytes as its type is wide.
    ghost wide: { (x : Self) → length (bytes x) ≡ WIDTH };
}

impl Number for u8 {
    ghost WIDTH = { 1 };

    const WIDTH: usize = 1;

    ghost read = { le 1 };

    ghost bytes = { le_bytes 1 };

    ghost wide = { λ _. refl };

    fn get(b: &Block, at: usize) -> u8 {
        b[at]
    }

    fn put(self, b: &mut Block, at: usize) {
        b[at] = self;
    }
}

impl Number for u16 {
    ghost WIDTH = { 2 };

    const WIDTH: usize = 2;

    ghost read = { le 2 };

    ghost bytes = { le_bytes 2 };

    ghost wide = { λ _. refl };

    fn get(b: &Block, at: usize) -> u16 {
        u16::from_le_bytes([b[at], b[at + 1]])
    }

    fn put(self, b: &mut Block, at: usize) {
        let [low, high] = self.to_le_bytes();
        b[at] = low;
        b[at + 1] = high;
    }
}

impl Number for u32 {
    ghost WIDTH = { 4 };

    const WIDTH: usize = 4;

    ghost read = { le 4 };

    ghost bytes = { le_bytes 4 };

    ghost wide = { λ _. refl };

    fn get(b: &Block, at: usize) -> u32 {
        u32::from_le_bytes([b[at], b[at + 1], b[at + 2], b[at + 3]])
    }

    fn put(self, b: &mut Block, at: usize) {
        let [first, second, third, fourth] = self.to_le_bytes();
        b[at] = first;
        b[at + 1] = second;
        b[at + 2] = third;
        b[at + 3] = fourth;
    }
}

pub fn get_all<N: Number, const K: usize>(b: &Block, at: usize) -> [N; K]
    requires { at + N.WIDTH * K ≤ block_bytes }
    ensures { result ≡ numbers_at N.read N.WIDTH b.now at K }
{
    let mut all = [N::default(); K];
    for (i, x) in all.iter_mut().enumerate() {
        *x = N::get(b, at + N::WIDTH * i);
    }
    all
}

pub fn put_all<N: Number>(b: &mut Block, at: usize, all: &[N])
    requires { at + N.WIDTH * length all.now ≤ block_bytes }
    ensures { Put b.old b.new (joined N.bytes all.now) at (at + N.WIDTH * length all.now) }
{
    for (i, x) in all.iter().enumerate() {
        x.put(b, at + N::WIDTH * i);
    }
}

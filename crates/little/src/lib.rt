// Little-endian numbers of two, four and eight bytes at an offset of a byte slice.
//
// The contracts cite `specs/Little.antt`; `proofs/Laws.antt` has the laws of its definitions.
#![tactic(auto)]

ghost use Rattle.std.specs.Prelude.{◌≡◌, ℕ, ◌+◌, ◌≤◌, ◌<◌, length, get_or};
ghost use Rattle.little.specs.Little.{bytes, value, part, written};

// A number that is kept in `WIDTH` bytes.
pub trait Word: Copy + Into<u64> {
    ghost WIDTH: { ℕ };

    ghost number: { Self → ℕ };

    const WIDTH: usize;

    // The number in the bytes of s from index `at` on: std's flat sum of them, which is compiled to one load.
    // Kept: one `read` for each width; in one loop over it, what is compared with 0 is read by bytes: `has_header` takes 1.5 times as long.
    fn read(s: &[u8], at: usize) -> Self
        requires { at + WIDTH ≤ length s.now }
        ensures { number result ≡ value (part at WIDTH s.now) };

    // It is converted to the same number.
    ghost same: { (x : Self) (n : ℕ) → Self.converts x n → n ≡ number x };
}

// The number in the bytes of s from index `at` on.
pub fn get<W: Word>(s: &[u8], at: usize) -> W
    requires { at + W.WIDTH ≤ length s.now }
    ensures { W.number result ≡ value (part at W.WIDTH s.now) }
{
    W::read(s, at)
}

// Writes x's bytes into s from index `at` on.
// Kept: the bytes one by one, and no `to_le_bytes`: the edit `put_divides_by_128` is of this division.
// Speed: at a width that is known the loop is compiled to one store.
pub fn put<W: Word>(s: &mut [u8], at: usize, x: W)
    requires { at + W.WIDTH ≤ length s.old }
    ensures { s.new ≡ written at (bytes W.WIDTH (W.number x)) s.old }
{
    let mut rest: u64 = x.into();
    for i in 0..W::WIDTH {
        s[at + i] = (rest % 256) as u8;
        rest = rest / 256;
    }
}

// The byte of s at an index.
pub fn byte(s: &[u8], at: usize) -> u32
    requires { at < length s.now }
    ensures { (result ≡ get_or s.now at 0) × (result < 256) }
{
    s[at] as u32
}

impl Word for u16 {
    ghost WIDTH = { 2 };

    ghost number = { λ n. n };

    const WIDTH: usize = 2;

    #[tactic(auto, using(crate::proofs::Laws::value_two))]
    fn read(s: &[u8], at: usize) -> u16 {
        u16::from_le_bytes([s[at], s[at + 1]])
    }

    ghost same = { λ x n e. e };
}

impl Word for u32 {
    ghost WIDTH = { 4 };

    ghost number = { λ n. n };

    const WIDTH: usize = 4;

    #[tactic(auto, using(crate::proofs::Laws::value_four))]
    fn read(s: &[u8], at: usize) -> u32 {
        u32::from_le_bytes([s[at], s[at + 1], s[at + 2], s[at + 3]])
    }

    ghost same = { λ x n e. e };
}

impl Word for u64 {
    ghost WIDTH = { 8 };

    ghost number = { λ n. n };

    const WIDTH: usize = 8;

    #[tactic(auto, using(crate::proofs::Laws::value_eight))]
    fn read(s: &[u8], at: usize) -> u64 {
        u64::from_le_bytes([
            s[at],
            s[at + 1],
            s[at + 2],
            s[at + 3],
            s[at + 4],
            s[at + 5],
            s[at + 6],
            s[at + 7],
        ])
    }

    ghost same = { λ x n e. e };
}

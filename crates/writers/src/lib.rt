#![tactic(auto)]
// A text in memory of its own, and what is put at its end: bytes, numbers and names.
ghost use Rattle.std.specs.Prelude.{◌≡◌, ◌+◌, ◌*◌, ◌<◌, ◌≤◌, ℕ, ℤ, List, [], ◌++◌, pos, length, take};
ghost use Rattle.io.specs.Counts.{IsPrefixLen};
ghost use Rattle.writers.specs.Text.{digit as Text·digit, natural, decimal, unfilled, hexadecimal};
ghost use Rattle.writers.specs.inner.Wrote.{Wrote};

use std::marker::Model;

// A text of at most N bytes, in fixed memory: no `Vec`, since nothing is on the heap.
#[derive(Drop)]
pub struct Text<const N: usize> {
    bytes: [u8; N],
    len: usize,
}

impl<const N: usize> Model for Text<N> {
    ghost Value = { List ℕ };

    ghost view = { λ t. take t.len t.bytes };

    ghost invariant = { λ t. t.len ≤ N };
}

impl<const N: usize> Text<N> {
    pub fn new() -> Self
        ensures { result ≡ [] }
    {
        Text {
            bytes: [0; N],
            len: 0,
        }
    }

    pub fn as_slice(&self) -> &[u8]
        ensures value { result.now ≡ self.now }
        ensures room { length self.now ≤ N }
    {
        &self.bytes[..self.len]
    }

    // All of the bytes.
    pub fn put_bytes(&mut self, bytes: &[u8])
        requires { length self.old + length bytes.now ≤ N }
        ensures { self.new ≡ self.old ++ bytes.now }
    {
        let end = self.len + bytes.len();
        let all = &mut self.bytes[..];
        all[self.len..end].copy_from_slice(bytes);
        self.len = end;
    }

    // z in decimal.
    pub fn put_decimal<Z: Number>(&mut self, z: Z)
        requires { length self.old + 20 ≤ N }
        ensures written { self.new ≡ self.old ++ decimal (Z.value z) }
        ensures room { length self.new ≤ length self.old + 20 }
    {
        let all = &mut self.bytes[..];
        self.len += z.write(&mut all[self.len..]);
    }

    // The two hexadecimal digits of each byte.
    pub fn put_hexadecimal(&mut self, bytes: &[u8])
        requires { length self.old + 2 * length bytes.now ≤ N }
        ensures written { self.new ≡ self.old ++ hexadecimal bytes.now }
        ensures room { length self.new ≤ length self.old + 2 * length bytes.now }
    {
        for b in bytes {
            self.put_bytes(&[digit(*b / 16), digit(*b % 16)]);
        }
    }

    // The hexadecimal digits of a name without its filling.
    #[tactic(auto, using(crate::proofs::Names::unfilled_front))]
    pub fn put_name(&mut self, name: &[u8])
        requires { length self.old + 2 * length name.now ≤ N }
        ensures written { self.new ≡ self.old ++ hexadecimal (unfilled name.now) }
        ensures room { length self.new ≤ length self.old + 2 * length name.now }
    {
        self.put_hexadecimal(&name[..used(name)]);
    }
}

// A number of at most 64 bits.
pub trait Number: Copy {
    ghost value: { Self → ℤ };

    // The number in decimal without leading zeros, a minus before a negative one, at the front of the buffer.
    // Returns how many bytes these are.
    fn write(self, out: &mut [u8]) -> usize
        requires { 20 ≤ length out.old }
        ensures wrote { Wrote (decimal (value self)) out.old out.new result }
        ensures room { result ≤ 20 };
}

impl Number for i64 {
    ghost value = { λ z. z };

    #[tactic(auto, unfolding(crate::specs::Text::decimal, crate::specs::Text::ascii))]
    fn write(self, out: &mut [u8]) -> usize {
        if 0 <= self {
            return write_natural(self.unsigned_abs(), out);
        }
        let mut n = put(b"-", out);
        n += write_natural(self.unsigned_abs(), &mut out[n..]);
        n
    }
}

impl Number for usize {
    ghost value = { pos };

    #[tactic(auto, unfolding(crate::specs::Text::decimal))]
    fn write(self, out: &mut [u8]) -> usize {
        write_natural(self as u64, out)
    }
}

// n in decimal without leading zeros, two digits at a time. By hand: `write!` asks for a `fmt::Write` with errors, which is no plainer.
fn write_natural(n: u64, out: &mut [u8]) -> usize
    requires { length (natural n) ≤ length out.old }
    ensures { Wrote (natural n) out.old out.new result }
{
    if n < 10 {
        return put(&[digit(n as u8)], out);
    }
    let last = (n % 100) as u8;
    let pair = [digit(last / 10), digit(last % 10)];
    if n < 100 {
        return put(&pair, out);
    }
    let mut front = write_natural(n / 100, out);
    front += put(&pair, &mut out[front..]);
    front
}

// The digit for a number below 16. `char::from_digit` gives an Option of a wider type, which is no plainer.
#[tactic(auto, unfolding(crate::specs::Text::ascii))]
fn digit(d: u8) -> u8
    requires { d < 16 }
    ensures { result ≡ Text·digit d }
{
    b"0123456789abcdef"[usize::from(d)]
}

// How many bytes of a name stand before its filling.
pub fn used(name: &[u8]) -> usize
    ensures value { result ≡ length (unfilled name.now) }
    ensures prefix_len { IsPrefixLen result name.now }
{
    name.iter().position(|b| *b == 0).unwrap_or(name.len())
}

// All of the bytes at the front of the buffer. Returns how many these are. A count and no slice: where a slice of the
// buffer is handed back, a contract can't say what the buffer holds.
pub fn put(bytes: &[u8], out: &mut [u8]) -> usize
    requires { length bytes.now ≤ length out.old }
    ensures { Wrote bytes.now out.old out.new result }
{
    out[..bytes.len()].copy_from_slice(bytes);
    bytes.len()
}

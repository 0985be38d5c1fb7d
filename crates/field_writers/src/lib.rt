#![tactic(auto)]
// Writers of fields. Each fills the front of the buffer that it is lent, and returns how many bytes these are:
// a count and no slice, so that the buffer can be lent on.
ghost use Rattle.std.specs.Prelude.{◌≡◌, List, ℕ, ◌∷◌, [], ◌≤◌, length};
ghost use Rattle.writers.specs.inner.Wrote.{Wrote};
ghost use Rattle.field_writers.specs.FieldBytes.{bytes16, bytes32, signed16, signed32};

// A number that is a field: how many bytes it has, and which.
pub trait Field {
    ghost width: { ℕ };

    ghost bytes: { Self → List ℕ };

    fn put(self, out: &mut [u8]) -> usize
        requires { width ≤ length out.old }
        ensures wrote { Wrote (bytes self) out.old out.new result }
        ensures value { result ≡ width };
}

impl Field for u8 {
    ghost width = { 1 };

    ghost bytes = { λ n. n ∷ [] };

    fn put(self, out: &mut [u8]) -> usize {
        writers::put(&[self], out)
    }
}

impl Field for u16 {
    ghost width = { 2 };

    ghost bytes = { bytes16 };

    fn put(self, out: &mut [u8]) -> usize {
        writers::put(&u16::to_be_bytes(self), out)
    }
}

impl Field for u32 {
    ghost width = { 4 };

    ghost bytes = { bytes32 };

    fn put(self, out: &mut [u8]) -> usize {
        writers::put(&u32::to_be_bytes(self), out)
    }
}

impl Field for i16 {
    ghost width = { 2 };

    ghost bytes = { signed16 };

    #[tactic(auto, unfolding(crate::specs::FieldBytes::signed16))]
    fn put(self, out: &mut [u8]) -> usize {
        writers::put(&i16::to_be_bytes(self), out)
    }
}

impl Field for i32 {
    ghost width = { 4 };

    ghost bytes = { signed32 };

    #[tactic(auto, unfolding(crate::specs::FieldBytes::signed32))]
    fn put(self, out: &mut [u8]) -> usize {
        writers::put(&i32::to_be_bytes(self), out)
    }
}

// The kind byte, and the name behind it. A byte and no `Kind`: fields know no records.
#[tactic(auto, using(crate::proofs::Records::first))]
pub fn put_front(kind: u8, name: [u8; 16], out: &mut [u8]) -> usize
    requires { 17 ≤ length out.old }
    ensures wrote { Wrote (kind ∷ name) out.old out.new result }
    ensures value { result ≡ 17 }
    ensures name_len { length name ≡ 16 }
{
    let mut n = kind.put(out);
    n += writers::put(&name, &mut out[n..]);
    n
}

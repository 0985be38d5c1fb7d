#![tactic(auto)]
// Writers of records. Each fills the front of the buffer that it is lent, and returns how many bytes these are:
// a count and no slice, as a field's.
mod flows;
mod grid;
mod nameless;

ghost use Rattle.std.specs.Prelude.{◌≡◌, List, ℕ, ◌∷◌, ◌≤◌, length};
ghost use Rattle.writers.specs.inner.Wrote.{Wrote};
ghost use Rattle.record_table.specs.inner.Sizes.{size};

// A record of a sheet: its kind, the bytes of its body, and that it is had back when the body is read again.
pub trait Record {
    ghost kind: { ℕ };

    ghost body: { Self → List ℕ };

    ghost returns: { Self → Type 0 };

    fn put(self, out: &mut [u8]) -> usize
        requires { size kind ≤ length out.old }
        ensures wrote { Wrote (kind ∷ body self) out.old out.new result }
        ensures value { result ≡ size kind }
        ensures returns { returns self };
}

#![tactic(auto)]
// Texts one behind the other, each ended by a zero byte: a table of words, of which one is looked up.
ghost use Rattle.std.specs.Prelude.{◌≡◌};
ghost use Rattle.texts.specs.inner.Texts.{text_of};

// The text of a number, the first being 0; behind the last nothing.
pub fn text_of(texts: &[u8], n: usize) -> &[u8]
    ensures { result.now ≡ text_of n texts.now }
{
    texts.split(|b| *b == 0).nth(n).unwrap_or(b"")
}

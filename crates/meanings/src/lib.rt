#![tactic(auto)]
// What the refusals mean, and the words for the kinds of records, for people.
ghost use Rattle.std.specs.Prelude.{◌≡◌, ◌≤◌, length};
ghost use Rattle.meanings.specs.Meanings.{meaning, kind_word};
ghost use Rattle.meanings.specs.inner.Tables.{meaning_room, word_room};

use texts::text_of;

// What a refusal means: where it is met. By number: any byte has an answer, one that is no refusal's the empty text.
// One byte string, here and below, and no `match` or array of texts: each of those has facts of its own to prove.
pub fn meaning(refusal: u8) -> &'static [u8]
    ensures value { result.now ≡ meaning refusal }
    ensures room { length result.now ≤ meaning_room }
{
    text_of(
        b"\0\
          the sheet is empty, or its first byte is not 1\0\
          kind byte not 1..8\0\
          the sheet ends within the body\0\
          kind below the one before, or a second head\0\
          33rd zone, 257th unit, 33rd point, 9th PAR, 5th path or 2nd circulation\0\
          first byte zero, or a non-zero byte after a zero\0\
          same name earlier in the same kind\0\
          RTO, type or class neither 1 nor 2; a unit's zone 0 or above the count of zones; a place above that count\0\
          a number of kinds 1 to 5, a path's flow or the circulation outside its range\0\
          target, subject and index are not those due, or nothing is due any more\0\
          factor below -10,000 or above 10,000, a path's too\0\
          no zone, or no unit\0\
          factors are still due\0\
          a record of the list cut short, of another kind, badly named, out of range, with a repeated name, or after the 2,500th\0\
          no entry bears the flowgate's name\0\
          loads with losses, or outputs, sum above 2,000,000\0\
          a zone load is below zero\0\
          final load is zero or below\0\
          a zone generation is below zero\0\
          net generation is zero\0\
          final generation is below zero\0\
          settlement flow below -10,000,000,000 W or above 10,000,000,000 W\0\
          the output buffer is shorter than the listing\0\
          it has 60 intervals\0\
          its seconds and the interval's sum above 3600\0\
          it is not empty, and the interval has another flowgate name or Monitoring RTO\0\
          the buffer is shorter than the sheet\0\
          a path or a circulation is there, but fewer than four paths or no circulation\0",
        usize::from(refusal),
    )
}

// The word for a kind: the one for unknown kinds is the first. By a record's first byte, which may be any: so no enum.
pub fn kind_word(kind: u8) -> &'static [u8]
    ensures value { result.now ≡ kind_word kind }
    ensures room { length result.now ≤ word_room }
{
    text_of(
        b"unknown\0head\0zone\0unit\0scheduling point\0PAR\0factor\0path\0circulation\0",
        usize::from(if kind <= 8 { kind } else { 0 }),
    )
}

#![tactic(auto)]
// The lines of an offending record, put at a text's end.
ghost use Rattle.std.specs.Prelude.{◌≡◌, ◌+◌, ◌*◌, ◌≤◌, ◌++◌, length};
ghost use Rattle.lines.specs.inner.Room.{line_room};
ghost use Rattle.record_table.specs.inner.Sizes.{most_size};
ghost use Rattle.record_lines.specs.RecordLines.{kind_line, name_line, bytes_line, record_lines};

use lines::put_line;
use meanings::kind_word;
use writers::Text;

// By the record's first byte, which may be of no kind: so no enum.
#[tactic(auto, unfolding(crate::specs::RecordLines::kind_line, crate::specs::RecordLines::text_line, writers::specs::Text::ascii))]
fn put_kind<const N: usize>(text: &mut Text<N>, kind: u8)
    requires { length text.old + 2 * line_room ≤ N }
    ensures written { text.new ≡ text.old ++ kind_line kind }
    ensures room { length text.new ≤ length text.old + 2 * line_room }
{
    text.put_bytes(b"kind ");
    text.put_decimal(i64::from(kind));
    text.put_bytes(b" ");
    text.put_bytes(kind_word(kind));
    text.put_bytes(b"\n");
}

// Of a part without a whole name nothing.
#[tactic(auto, unfolding(crate::specs::RecordLines::name_line, crate::specs::RecordLines::text_line, writers::specs::Text::ascii))]
fn put_name_line<const N: usize>(text: &mut Text<N>, part: &[u8])
    requires { length text.old + 2 * line_room ≤ N }
    ensures written { text.new ≡ text.old ++ name_line part.now }
    ensures room { length text.new ≤ length text.old + 2 * line_room }
{
    if part.len() < 17 {
        return;
    }
    text.put_bytes(b"name ");
    text.put_name(&part[1..17]);
    text.put_bytes(b"\n");
}

#[tactic(auto, unfolding(crate::specs::RecordLines::bytes_line, crate::specs::RecordLines::text_line, writers::specs::Text::ascii), using(writers::proofs::Names::hexadecimal_length))]
fn put_bytes_line<const N: usize>(text: &mut Text<N>, part: &[u8])
    requires { (length part.now ≤ most_size) × (length text.old + 3 * line_room ≤ N) }
    ensures written { text.new ≡ text.old ++ bytes_line part.now }
    ensures room { length text.new ≤ length text.old + 3 * line_room }
{
    text.put_bytes(b"bytes ");
    text.put_hexadecimal(part);
    text.put_bytes(b"\n");
}

// The lines of the record in a part; of an empty part nothing.
#[tactic(auto, unfolding(crate::specs::RecordLines::record_lines, printout::specs::Lines::joined, writers::specs::Text::ascii))]
pub fn put_record<const N: usize>(text: &mut Text<N>, number: usize, part: &[u8])
    requires { (length part.now ≤ most_size) × (length text.old + 8 * line_room ≤ N) }
    ensures written { text.new ≡ text.old ++ record_lines number part.now }
    ensures room { length text.new ≤ length text.old + 8 * line_room }
{
    if part.is_empty() {
        return;
    }
    put_kind(text, part[0]);
    put_line(text, b"record ", number);
    put_name_line(text, part);
    put_bytes_line(text, part);
}

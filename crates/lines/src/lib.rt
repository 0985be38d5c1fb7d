#![tactic(auto)]
// The lines of the printed statement, put at a text's end.
ghost use Rattle.std.specs.Prelude.{◌≡◌, ◌+◌, ◌*◌, ◌≤◌, ◌++◌, length};
ghost use Rattle.printout.specs.Lines.{figure, line, flowgate_line, gtl_line};
ghost use Rattle.printout.specs.Listing.{refusal_line};
ghost use Rattle.lines.specs.inner.Room.{label_room, line_room};

use writers::{Number, Text};

// The room for a line: the longest label, a number of 64 bits and the line feed.
pub const LINE: usize = 33;

// A label and a number.
#[tactic(auto, unfolding(printout::specs::Lines::figure))]
fn put_figure<Z: Number, const N: usize>(text: &mut Text<N>, label: &[u8], z: Z)
    requires { (length label.now ≤ label_room) × (length text.old + line_room ≤ N + 1) }
    ensures written { text.new ≡ text.old ++ figure label.now (Z.value z) }
    ensures room { length text.new + 1 ≤ length text.old + line_room }
{
    text.put_bytes(label);
    text.put_decimal(z);
}

// A label and a number on a line of their own.
#[tactic(auto, unfolding(printout::specs::Lines::line, writers::specs::Text::ascii))]
pub fn put_line<Z: Number, const N: usize>(text: &mut Text<N>, label: &[u8], z: Z)
    requires { (length label.now ≤ label_room) × (length text.old + line_room ≤ N) }
    ensures written { text.new ≡ text.old ++ line label.now (Z.value z) }
    ensures room { length text.new ≤ length text.old + line_room }
{
    put_figure(text, label, z);
    text.put_bytes(b"\n");
}

#[tactic(auto, unfolding(printout::specs::Lines::flowgate_line, writers::specs::Text::ascii))]
pub fn put_flowgate<const N: usize>(text: &mut Text<N>, name: &[u8; 16])
    requires { length text.old + 2 * line_room ≤ N }
    ensures written { text.new ≡ text.old ++ flowgate_line name.now }
    ensures room { length text.new ≤ length text.old + 2 * line_room }
{
    text.put_bytes(b"flowgate ");
    text.put_name(name);
    text.put_bytes(b"\n");
}

pub fn put_gtl<const N: usize>(text: &mut Text<N>, flow: i64, first: i64, second: i64)
    requires { length text.old + 3 * line_room ≤ N }
    ensures written { text.new ≡ text.old ++ gtl_line flow first second }
    ensures room { length text.new ≤ length text.old + 3 * line_room }
{
    put_figure(text, b"gtl ", flow);
    put_figure(text, b" ", first);
    put_line(text, b" ", second);
}

// By number, as a statement has its refusal for C.
#[tactic(auto, unfolding(printout::specs::Listing::refusal_line, writers::specs::Text::ascii))]
pub fn put_refusal<const N: usize>(text: &mut Text<N>, n: u8)
    requires { length text.old + line_room ≤ N }
    ensures written { text.new ≡ text.old ++ refusal_line n }
    ensures room { length text.new ≤ length text.old + line_room }
{
    put_line(text, b"refused ", i64::from(n));
}

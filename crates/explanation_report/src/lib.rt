#![tactic(auto)]
// What the program `explain` prints: which record refuses a sheet and why, or the reason for the price of an accepted
// one.
ghost use Rattle.std.specs.Prelude.{◌≡◌, ◌+◌, ◌*◌, ◌≤◌, ◌++◌, length};
ghost use Rattle.io.specs.Counts.{IsPrefixLen};
ghost use Rattle.writers.specs.Written.{written};
ghost use Rattle.lines.specs.inner.Room.{line_room};
ghost use Rattle.rows.specs.Refusals.{number, row_of};
ghost use Rattle.explanation.specs.Found.{found, reason_of};
ghost use Rattle.explanation_report.specs.ExplanationReport.{side_word, accepted_lines, front_lines, refused_lines, explanation_lines, explain_output};
ghost use Rattle.explanation_report.specs.inner.Whole.{Fits};

use explanation::{Finding, Side};
use lines::{put_line, put_refusal};
use rows::Refusal;
use writers::{Text, put};

// Room for whatever the program prints: 16 lines, of which the meaning takes five, the record eight.
pub const OUTPUT_ROOM: usize = 16 * lines::LINE;

// The word for a side. Bytes and no `Display`: what is printed is bytes.
#[tactic(auto, unfolding(crate::specs::ExplanationReport::side_word, writers::specs::Text::ascii))]
fn side_word(side: Side) -> &'static [u8]
    ensures value { result.now ≡ side_word (reason_of side) }
    ensures room { length result.now ≤ line_room }
{
    match side {
        Side::Above => b"above",
        Side::Below => b"below",
        Side::At => b"at",
    }
}

#[tactic(auto, unfolding(crate::specs::ExplanationReport::accepted_lines, writers::specs::Text::ascii))]
fn accepted(side: Side) -> Text<OUTPUT_ROOM>
    ensures { result ≡ accepted_lines (reason_of side) }
{
    let mut text = Text::new();
    text.put_bytes(b"accepted\nreason the flow paid on is ");
    text.put_bytes(side_word(side));
    text.put_bytes(b" the entitlement\n");
    text
}

#[tactic(auto, unfolding(crate::specs::ExplanationReport::front_lines, record_lines::specs::RecordLines::text_line, printout::specs::Lines::joined, writers::specs::Text::ascii))]
fn put_front(text: &mut Text<OUTPUT_ROOM>, refusal: Refusal, from: usize, to: usize)
    requires { length text.old ≤ 8 * line_room }
    ensures written { text.new ≡ text.old ++ front_lines (number refusal) from to }
    ensures room { length text.new ≤ length text.old + 8 * line_room }
{
    put_refusal(text, refusal.number());
    text.put_bytes(b"meaning ");
    text.put_bytes(meanings::meaning(refusal.number()));
    text.put_bytes(b"\n");
    put_line(text, b"from ", from);
    put_line(text, b"to ", to);
}

#[tactic(auto, unfolding(crate::specs::ExplanationReport::refused_lines))]
fn refused(sheet: &[u8], f: Finding, refusal: Refusal) -> Text<OUTPUT_ROOM>
    requires { Fits sheet.now (found f) × (row_of f.reason ≡ number refusal) }
    ensures { result ≡ refused_lines sheet.now (found f) }
{
    let number = record_numbers::record_number(sheet, f.from);
    let mut text = Text::new();
    put_front(&mut text, refusal, f.from, f.to);
    record_lines::put_record(&mut text, number, &sheet[f.from..f.to]);
    text
}

#[tactic(auto, unfolding(crate::specs::ExplanationReport::explanation_lines), using(rows::proofs::Refusing::number_positive))]
fn explained(sheet: &[u8], f: Finding) -> Text<OUTPUT_ROOM>
    requires { Fits sheet.now (found f) }
    ensures { result ≡ explanation_lines sheet.now (found f) }
{
    match f.reason {
        Ok(side) => accepted(side),
        Err(refusal) => refused(sheet, f, refusal),
    }
}

// The program's standard output at the front of a buffer that has room for it. Returns its length: a count and no
// slice, as in `writers::put`.
pub fn write_explanation(sheet: &[u8], list: &[u8], out: &mut [u8; OUTPUT_ROOM]) -> usize
    ensures value { result ≡ length (explain_output sheet.now list.now) }
    ensures out_after { out.new ≡ written (explain_output sheet.now list.now) out.old }
    ensures prefix_len { IsPrefixLen result out.new }
{
    let f = explanation::locate(sheet, list);
    put(explained(sheet, f).as_slice(), out)
}

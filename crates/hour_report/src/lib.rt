#![tactic(auto)]
// What the program `hour` prints: a line for each sheet, and the lines of the hour.
ghost use Rattle.std.specs.Prelude.{◌≡◌, length};
ghost use Rattle.io.specs.Counts.{IsPrefixLen};
ghost use Rattle.settlement.specs.Settled.{inputs, interval};
ghost use Rattle.hours.specs.Hour.{added};
ghost use Rattle.hours.specs.Totals.{totals_of};
ghost use Rattle.writers.specs.Written.{written};
ghost use Rattle.hour_report.specs.HourReport.{sheet_line, told_of, hour_lines};

use hours::{Hour, Totals};
use line_groups::put_amounts;
use lines::{put_line, put_refusal};
use writers::{Text, put};

// Room for a sheet's line, and for the lines of an hour.
pub const SHEET_ROOM: usize = lines::LINE;

pub const HOUR_ROOM: usize = 4 * lines::LINE;

// The hour after a sheet, and how many bytes of the output buffer are the sheet's line. A length and no slice:
// where a slice of the buffer is handed back, a contract can't say what the buffer holds.
#[derive(Clone, Copy)]
pub struct Told {
    pub hour: Hour,
    pub length: usize,
}

// A sheet's line: its amount, or the refusal. By number, 0 for none, as an hour that changed has it for C.
#[tactic(auto, unfolding(crate::specs::HourReport::sheet_line, writers::specs::Text::ascii))]
fn sheet_line(refusal: u8, amount: i64) -> Text<SHEET_ROOM>
    ensures { result ≡ sheet_line refusal amount }
{
    let mut text = Text::new();
    if refusal == 0 {
        put_line(&mut text, b"amount ", amount);
    } else {
        put_refusal(&mut text, refusal);
    }
    text
}

// The hour's lines.
#[tactic(auto, unfolding(crate::specs::HourReport::hour_lines, writers::specs::Text::ascii))]
fn hour_lines(t: Totals) -> Text<HOUR_ROOM>
    ensures { result ≡ hour_lines t }
{
    let mut text = Text::new();
    put_line(&mut text, b"seconds ", i64::from(t.seconds));
    put_amounts(&mut text, t.amount, t.nyiso, t.pjm);
    text
}

// The hour after the interval of a sheet and a list, and the sheet's line at the front of the output buffer.
pub fn add_sheet(hour: Hour, sheet: &[u8], list: &[u8], out: &mut [u8; SHEET_ROOM]) -> Told
    ensures hour_value { result.hour ≡ (added hour (interval (inputs sheet.now list.now))).hour }
    ensures length_value { result.length ≡ length (told_of hour (interval (inputs sheet.now list.now))) }
    ensures out_after { out.new ≡ written (told_of hour (interval (inputs sheet.now list.now))) out.old }
    ensures prefix_len { IsPrefixLen result.length out.new }
{
    let i = settlement::settle_interval(sheet, list);
    let statement = i.statement;
    let amount = statement.amount;
    let changed = hour.take(i);
    let length = put(sheet_line(changed.refusal, amount).as_slice(), out);
    let hour = changed.hour;
    Told { hour, length }
}

// The lines of an hour at the front of the output buffer. Returns their length: a count and no slice, as in
// `writers::put`.
pub fn write_hour(hour: Hour, out: &mut [u8; HOUR_ROOM]) -> usize
    ensures value { result ≡ length (hour_lines (totals_of hour)) }
    ensures out_after { out.new ≡ written (hour_lines (totals_of hour)) out.old }
    ensures prefix_len { IsPrefixLen result out.new }
{
    let t = grown_hours::totals(hour);
    put(hour_lines(t).as_slice(), out)
}

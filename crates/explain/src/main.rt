#![tactic(auto)]
// explain SHEET LIST: tells which record of the sheet refuses it and why, or the reason for the price, of the two
// files named, or of sheet.bin and entitle.bin. It only reads, calls the proved function and writes; whatever fails
// is told on standard error.
ghost use Rattle.std.specs.Prelude.{◌≤◌, length, take};
ghost use Rattle.files.specs.Files.{Written};
ghost use Rattle.explanation_report.specs.ExplanationReport.{explain_output};

use files::Teller;
use std::io::Write;
use transfers::Errno;

// One write for each line: where the stream of errors takes some of them, these are whole.
const USAGE: [&str; 5] = [
    "usage: explain [SHEET LIST]\n",
    "Tells which record of an interval sheet is refused, by which number and why, or of\n",
    "an accepted sheet the reason for its price. The files are sheet.bin and entitle.bin\n",
    "where none are named. A file that can't be read whole counts as empty. Whatever\n",
    "fails is told on standard error; the exit status is always 0.\n",
];

// Prints what comes of the sheet and the list at the front of their buffers. Here and below, shared with `settle` it
// would be longer: the output would be handed in.
#[tactic(auto, using(files::proofs::Fronts::sent_front))]
fn print_explained<W: Write>(
    printed: &mut W,
    sheet: &[u8],
    sheet_length: usize,
    list: &[u8],
    list_length: usize,
) -> Result<(), Errno>
    requires sheet_fits { sheet_length ≤ length sheet.now }
    requires list_fits { list_length ≤ length list.now }
    ensures { Written (W.contents printed.old) (W.contents printed.new)
        (explain_output (take sheet_length sheet.now) (take list_length list.now)) result }
{
    let mut out = [0u8; explanation_report::OUTPUT_ROOM];
    let length = explanation_report::write_explanation(
        &sheet[..sheet_length],
        &list[..list_length],
        &mut out,
    );
    files::send(printed, &out[..length])
}

// A large buffer holds more than the longest sheet and its next record, and more than the longest list and a byte.
// Host and teller are two parameters: the one is lent, the other changed. Not inlined: to tell the usage takes no room
// for the buffers.
#[inline(never)]
fn explain_files<E: Write>(rt: &HostRuntime, teller: &mut Teller<E>) {
    let mut sheet = io::large_buffer();
    let mut list = io::large_buffer();
    let (n, m) = teller.load_pair(rt, &mut sheet, &mut list);
    let printed = print_explained(&mut rt.stdout(), &sheet, n, &list, m);
    teller.finish_output(rt, printed);
}

fn main(rt: HostRuntime) {
    let mut teller = Teller {
        program: b"explain",
        errors: rt.stderr(),
    };
    match files::argument_count(&rt) {
        1 | 3 => explain_files(&rt, &mut teller),
        _ => {
            for line in USAGE {
                let _written = transfers::write_all(&mut teller.errors, line.as_bytes());
            }
        }
    }
}

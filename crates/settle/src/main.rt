#![tactic(auto)]
// settle SHEET LIST: settles the two files named, or sheet.bin and entitle.bin, and prints the statement or the
// refusal's line. It only reads, calls the proved function and writes; whatever fails is told on standard error.
ghost use Rattle.std.specs.Prelude.{◌≤◌, length, take};
ghost use Rattle.files.specs.Files.{Written};
ghost use Rattle.report.specs.Report.{output};

use files::Teller;
use std::io::Write;
use transfers::Errno;

// One write for each line: where the stream of errors takes some of them, these are whole.
const USAGE: [&str; 5] = [
    "usage: settle [SHEET LIST]\n",
    "Settles an interval sheet against an entitlement list and prints the statement,\n",
    "or 'refused N'. The files are sheet.bin and entitle.bin where none are named. A\n",
    "file that can't be read whole counts as empty. Whatever fails is told on\n",
    "standard error; the exit status is always 0.\n",
];

// Prints what comes of the sheet and the list at the front of their buffers. Here and below, shared with `explain` it
// would be longer: the output would be handed in.
#[tactic(auto, using(files::proofs::Fronts::sent_front))]
fn print_settled<W: Write>(
    printed: &mut W,
    sheet: &[u8],
    sheet_length: usize,
    list: &[u8],
    list_length: usize,
) -> Result<(), Errno>
    requires sheet_fits { sheet_length ≤ length sheet.now }
    requires list_fits { list_length ≤ length list.now }
    ensures { Written (W.contents printed.old) (W.contents printed.new)
        (output (take sheet_length sheet.now) (take list_length list.now)) result }
{
    let mut out = [0u8; report::OUTPUT_ROOM];
    let length = report::write_output(&sheet[..sheet_length], &list[..list_length], &mut out);
    files::send(printed, &out[..length])
}

// A large buffer holds more than the longest sheet and its next record, and more than the longest list and a byte.
// Host and teller are two parameters: the one is lent, the other changed. Not inlined: to tell the usage takes no room
// for the buffers.
#[inline(never)]
fn settle_files<E: Write>(rt: &HostRuntime, teller: &mut Teller<E>) {
    let mut sheet = io::large_buffer();
    let mut list = io::large_buffer();
    let (n, m) = teller.load_pair(rt, &mut sheet, &mut list);
    let printed = print_settled(&mut rt.stdout(), &sheet, n, &list, m);
    teller.finish_output(rt, printed);
}

fn main(rt: HostRuntime) {
    let mut teller = Teller {
        program: b"settle",
        errors: rt.stderr(),
    };
    match files::argument_count(&rt) {
        1 | 3 => settle_files(&rt, &mut teller),
        _ => {
            for line in USAGE {
                let _written = transfers::write_all(&mut teller.errors, line.as_bytes());
            }
        }
    }
}

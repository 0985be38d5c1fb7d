#![tactic(auto)]
// hour LIST SHEET..: adds the intervals of the sheets to an hour, in order, each settled against the list; prints
// each sheet's amount or refusal, and then the hour. It only reads, calls the proved functions and writes; whatever
// fails is told on standard error.
use files::Teller;
use hours::Hour;
use std::io::Write;
use transfers::Errno;

// One write for each line: where the stream of errors takes some of them, these are whole.
const USAGE: [&str; 5] = [
    "usage: hour LIST SHEET..\n",
    "Adds the intervals of the sheets to an hour, in order, each settled against the\n",
    "entitlement list. Prints 'amount N' or 'refused N' for each sheet, then the\n",
    "hour's seconds, amount and payments. A file that can't be read whole counts as\n",
    "empty. Whatever fails is told on standard error; the exit status is always 0.\n",
];

// The hour after a sheet whose line was printed. A large buffer holds more than the longest sheet and its next record.
// Host and teller are two parameters, here and below: `main` lends the one, and the other is changed.
fn add_file<E: Write>(
    rt: &HostRuntime,
    teller: &mut Teller<E>,
    hour: Hour,
    argument: usize,
    list: &[u8],
) -> Result<Hour, Errno> {
    let mut sheet = io::large_buffer();
    let length = teller.load_argument(rt, argument, &mut sheet);
    let mut out = [0u8; hour_report::SHEET_ROOM];
    let told = hour_report::add_sheet(hour, &sheet[..length], list, &mut out);
    files::send(&mut rt.stdout(), &out[..told.length])?;
    Ok(told.hour)
}

fn print_hour(rt: &HostRuntime, hour: Hour) -> Result<(), Errno> {
    let mut out = [0u8; hour_report::HOUR_ROOM];
    let length = hour_report::write_hour(hour, &mut out);
    files::send(&mut rt.stdout(), &out[..length])
}

// Where a line can't be printed nothing more is.
fn add_files<E: Write>(
    rt: &HostRuntime,
    teller: &mut Teller<E>,
    count: usize,
    list: &[u8],
) -> Result<(), Errno> {
    let mut hour = Hour::open();
    for i in 2..count {
        hour = add_file(rt, teller, hour, i, list)?;
    }
    print_hour(rt, hour)
}

// A large buffer holds more than the longest list and a byte.
fn hour_of<E: Write>(rt: &HostRuntime, teller: &mut Teller<E>, count: usize) {
    let mut list = io::large_buffer();
    let length = teller.load_argument(rt, 1, &mut list);
    let printed = add_files(rt, teller, count, &list[..length]);
    teller.finish_output(rt, printed);
}

fn main(rt: HostRuntime) {
    let mut teller = Teller {
        program: b"hour",
        errors: rt.stderr(),
    };
    let count = files::argument_count(&rt);
    if count < 2 {
        for line in USAGE {
            let _written = transfers::write_all(&mut teller.errors, line.as_bytes());
        }
    } else {
        hour_of(&rt, &mut teller, count);
    }
}

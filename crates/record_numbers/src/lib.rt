#![tactic(auto)]
// The number of a record within its kind (document 01: within a kind, records are counted from 1).
ghost use Rattle.std.specs.Prelude.{◌≡◌};
ghost use Rattle.record_numbers.specs.RecordNumbers.{record_number};

// How many records of the kind at a place begin before it, and one more. At the sheet's end there is no record: 0.
// No `Option`: the definition counts from 1, with 0 where there is no record.
pub fn record_number(sheet: &[u8], at: usize) -> usize
    ensures { result ≡ record_number sheet.now at }
{
    if sheet.len() <= at {
        return 0;
    }
    // Its byte, and no `Kind`: a record of no known kind has a number too.
    let kind = sheet[at];
    let mut number = 1;
    let mut from = 0;
    // No `for`: records have lengths of their own.
    while from < at {
        let earlier = sheet[from];
        number += usize::from(earlier == kind);
        from += 1 + record_table::body_length(earlier);
    }
    number
}

#![tactic(auto)]
// The entitlement list (document 01, 'The interval sheet'), rows 14 and 15.
ghost use Rattle.std.specs.Prelude.{◌≡◌, false, ◌||◌, ◌≤◌, ◌<◌, cond, length, replicate};
ghost use Rattle.rows.specs.Rows.{beyond};
ghost use Rattle.names.specs.Names.{bad_name};
ghost use Rattle.entitlements.specs.Entitlements.{body_length, most_value, entry_of, row14, entries_of, look_up, entitlement, entitlement_of};
ghost use Rattle.entitlements.specs.inner.Steps.{Roomy};

use name_index::Run;
use rows::{Refusal, row};

// A record is one byte of kind and a body: name 16, entitlement 4.
const KIND: u8 = 0x10;

const BODY: usize = 20;

const RECORD: usize = BODY + 1;

const MOST_RECORDS: usize = 2500;

const MOST_VALUE: u64 = 100_000;

// A short list has a small table of names: a large one takes longer to clear than the list to check.
const FEW: usize = 16;

const SMALL_MASK: usize = 31;

const SMALL_TABLE: usize = SMALL_MASK + 1 + FEW;

const LARGE_MASK: usize = 4095;

const LARGE_TABLE: usize = LARGE_MASK + 1 + MOST_RECORDS;

// The entitlement that a body holds.
#[tactic(auto, unfolding(crate::specs::Entitlements::entry_of))]
fn value_of(body: &[u8]) -> i64
    requires { body_length ≤ length body.now }
    ensures { result ≡ (entry_of body.now).value }
{
    i64::from(fields::sbe32_at(body, 16))
}

// Whether a body's name or its value meets row 14.
#[tactic(auto, unfolding(crate::specs::Entitlements::entry_of))]
fn entry_fault(body: &[u8]) -> bool
    requires { body_length ≤ length body.now }
    ensures { result ≡ (bad_name (entry_of body.now).name || beyond most_value (entry_of body.now).value) }
{
    !names::name_ok_at(body, 0) | (MOST_VALUE < value_of(body).unsigned_abs())
}

// Row 14 on each record, by index: the names before are told by where they stand.
// The table, all zeros, has hashes up to the mask, and room for each name.
// No const parameter: two copies of this function call what one has inlined, and take 1.5 times as long.
fn check_with(list: &[u8], mask: usize, table: &mut [u16]) -> Result<(), Refusal>
    requires { (table.old ≡ replicate (length table.old) 0) × (mask < length table.old) × Roomy mask list.now (length table.old) }
    ensures { result ≡ cond (row14 list.now) (Err Refusal.BadList) (Ok tt) }
{
    for n in 0..list.len().div_ceil(RECORD) {
        let at = RECORD * n;
        let from = at + 1;
        row(Refusal::BadList, list.len() - from < BODY)?;
        row(Refusal::BadList, MOST_RECORDS <= n)?;
        let run = Run {
            first: 1,
            stride: RECORD,
            count: n,
            base: 0,
            mask,
        };
        let repeated = name_index::seen_before(list, from, run, table);
        row(Refusal::BadList, repeated)?;
        let unfit = (list[at] != KIND) | entry_fault(&list[from..]);
        row(Refusal::BadList, unfit)?;
    }
    Ok(())
}

// Row 14.
fn check(list: &[u8]) -> Result<(), Refusal>
    ensures { result ≡ cond (row14 list.now) (Err Refusal.BadList) (Ok tt) }
{
    if list.len() <= FEW * RECORD {
        check_with(list, SMALL_MASK, &mut [0; SMALL_TABLE])
    } else {
        check_with(list, LARGE_MASK, &mut [0; LARGE_TABLE])
    }
}

// The entitlement of the entry that bears the name, or row 15, in a list that passes row 14.
fn look_up(entries: &[u8], name: &[u8]) -> Result<i64, Refusal>
    requires { row14 entries.now ≡ false }
    ensures { entitlement_of result ≡ look_up (entries_of entries.now) name.now }
{
    row(Refusal::NoEntitlement, name.len() != 16)?;
    let high = fields::be64_at(name, 0);
    let low = fields::be64_at(name, 8);
    for entry in entries.chunks_exact(RECORD) {
        if names::has_words(entry, 1, high, low) {
            return Ok(value_of(&entry[1..]));
        }
    }
    Err(Refusal::NoEntitlement)
}

// What the list says of the flowgate of that name. Row 14 is about the whole list, and goes before 15.
#[tactic(auto, unfolding(crate::specs::Entitlements::entitlement))]
pub fn find(list: &[u8], name: &[u8]) -> Result<i64, Refusal>
    ensures { entitlement_of result ≡ entitlement list.now name.now }
{
    check(list)?;
    look_up(list, name)
}

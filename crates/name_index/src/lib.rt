#![tactic(auto)]
// An index of names, so that a repeated name is found without looking at all before it.
// In an array of the caller's, and no map of the library's: memory is fixed, and there is no heap.
ghost use Rattle.std.specs.Prelude.{◌≡◌, ◌+◌, ◌*◌, ◌≤◌, ◌<◌, length};
ghost use Rattle.names.specs.Names.{name_at, seen_before};
ghost use Rattle.name_index.specs.inner.Index.{hash_of, hash_at, names_at, place_of, Indexed, with_hash, with_next};

// Names that stand one behind the other:
// `count` of them, the first at `first`, each `stride` bytes behind the one before.
// A table holds them behind `base` others that no longer count; its hashes are up to `mask`.
// The bytes and the table stay parameters: both are the caller's, and a struct of all would be made for each call.
#[derive(Clone, Copy)]
pub struct Run {
    pub first: usize,
    pub stride: usize,
    pub count: usize,
    pub base: usize,
    pub mask: usize,
}

const HIGH_MODULUS: u64 = 65521;

const LOW_MODULUS: u64 = 65519;

// The hash of a name, from its two words of eight bytes.
#[tactic(auto, unfolding(crate::specs::inner::Index::hash_of))]
fn hash(high: u64, low: u64, mask: usize) -> usize
    ensures { result ≡ hash_of mask high low }
{
    ((high % HIGH_MODULUS + low % LOW_MODULUS) as usize) & mask
}

#[tactic(auto, unfolding(crate::specs::inner::Index::hash_at))]
fn hash_at(s: &[u8], at: usize, mask: usize) -> usize
    requires { at + 16 ≤ length s.now }
    ensures { result ≡ hash_at mask s.now at }
{
    hash(fields::be64_at(s, at), fields::be64_at(s, at + 8), mask)
}

// Whether the name at `at`, which stands behind the run and whose hash is h, is one of the run.
// Only those of its hash are looked at.
#[tactic(auto, using(crate::proofs::Table::searching))]
fn listed(s: &[u8], at: usize, run: Run, h: usize, table: &[u16]) -> bool
    requires { (at ≡ place_of run run.count) × (at + 16 ≤ length s.now) × (h ≡ hash_at run.mask s.now at) × Indexed s.now run table.now }
    ensures { result ≡ seen_before (names_at s.now run.first run.stride run.count) (name_at s.now at) }
{
    let high = fields::be64_at(s, at);
    let low = fields::be64_at(s, at + 8);
    // No `for`: the next place is read from the table.
    let mut last = usize::from(table[h]);
    while run.base < last {
        let j = last - run.base - 1;
        if names::has_words(s, run.first + run.stride * j, high, low) {
            return true;
        }
        last = usize::from(table[run.mask + last]);
    }
    false
}

// One name more, whose hash is h, behind `count` others of any hash.
#[tactic(auto, unfolding(crate::specs::inner::Index::with_hash))]
fn add(table: &mut [u16], mask: usize, h: usize, count: usize)
    requires { (h ≤ mask) × (mask + 1 + count < length table.old) × (count < 65535) }
    ensures { table.new ≡ with_hash table.old mask h count }
{
    table[mask + 1 + count] = table[h];
    table[h] = (count + 1) as u16;
}

// Whether the name at `at`, which stands behind the run, is one of the run; the table then holds it with them.
#[tactic(auto, using(crate::proofs::Table::hash_small), unfolding(crate::specs::inner::Index::with_next))]
pub fn seen_before(s: &[u8], at: usize, run: Run, table: &mut [u16]) -> bool
    requires { (at ≡ place_of run run.count) × (at + 16 ≤ length s.now) × (run.base + run.count < 65535) × (run.mask + 1 + (run.base + run.count) < length table.old) × Indexed s.now run table.old }
    ensures { (result ≡ seen_before (names_at s.now run.first run.stride run.count) (name_at s.now at)) × (table.new ≡ with_next s.now run table.old) }
{
    let h = hash_at(s, at, run.mask);
    let seen = listed(s, at, run, h, table);
    add(table, run.mask, h, run.base + run.count);
    seen
}

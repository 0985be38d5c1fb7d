#![tactic(auto)]
// A sheet's powers by zone: loads with losses, outputs, imports or exports, each summed by zone, and one less another
// zone by zone.
mod by_number;

ghost use Rattle.std.specs.Prelude.{◌≡◌, ◌≤◌, ◌<◌, ℕ};
ghost use Rattle.integers.specs.Sum.{sum_to};
ghost use Rattle.records.specs.Content.{Content};
ghost use Rattle.sheet.specs.Sheet.{content_of};
ghost use Rattle.zone_sums.specs.inner.Ledger.{Ledger, Loads, Outputs, Imports, Exports, number_of, BookingFits, booking_of, bookings, Sums, Held, figure_at};

pub use by_number::ZoneSums;
use records::Place;
use sheet::AcceptedSheet;

// An amount, and the number at which it is booked: a zone's, or 0 for the proxies.
// The number is the index of its sum: a place in its stead would be turned into that index again at each booking.
#[derive(Clone, Copy)]
pub struct Booking {
    pub number: usize,
    pub amount: u32,
}

#[tactic(auto, unfolding(crate::specs::inner::Ledger::number_of))]
fn number_of(place: Place) -> usize
    ensures { result ≡ number_of place }
{
    match place {
        Place::Proxy => 0,
        Place::Line(n) => usize::from(n),
    }
}

// The sums of n bookings, by number, in one pass.
// A loop: an iterator's `fold` would hand the array of sums from booking to booking, which is no plainer.
fn sum_up<F: Fn(usize) -> Booking>(n: usize, booking: F) -> ZoneSums
    requires few { n ≤ 256 }
    requires calls { (i : ℕ) → i < n → F.pre booking i }
    requires fits { (i : ℕ) (b : Booking) → i < n → F.post booking i b → BookingFits b }
    ensures { (c : Content) (ledger : Ledger) → n ≡ bookings c ledger → ((i : ℕ) (b : Booking) → i < n → F.post booking i b → b ≡ booking_of c ledger i) → Sums c ledger result.sums }
{
    let mut sums = [0u64; 33];
    for i in 0..n {
        let b = booking(i);
        sums[b.number] += u64::from(b.amount);
    }
    ZoneSums { sums }
}

pub fn loads(sheet: &AcceptedSheet<'_>) -> ZoneSums
    ensures { Sums (content_of sheet.now.bytes.now) Loads result.sums }
{
    sum_up(
        sheet.layout.zones,
        |i|
            requires { i < sheet.now.layout.zones }
            ensures { result ≡ booking_of (content_of sheet.entry.now.bytes.now) Loads i }
        {
            let zone = sheet_records::zone_at(sheet, i);
            Booking {
                number: i + 1,
                amount: zone.load + zone.losses,
            }
        },
    )
}

pub fn outputs(sheet: &AcceptedSheet<'_>) -> ZoneSums
    ensures { Sums (content_of sheet.now.bytes.now) Outputs result.sums }
{
    sum_up(
        sheet.layout.units,
        |i|
            requires { i < sheet.now.layout.units }
            ensures { result ≡ booking_of (content_of sheet.entry.now.bytes.now) Outputs i }
        {
            let unit = sheet_records::unit_at(sheet, i);
            Booking {
                number: usize::from(unit.zone),
                amount: unit.output,
            }
        },
    )
}

// Imports and exports alike: one function over both would take the field by a closure more, which is no plainer.
pub fn imports(sheet: &AcceptedSheet<'_>) -> ZoneSums
    ensures { Sums (content_of sheet.now.bytes.now) Imports result.sums }
{
    sum_up(
        sheet.layout.points,
        |i|
            requires { i < sheet.now.layout.points }
            ensures { result ≡ booking_of (content_of sheet.entry.now.bytes.now) Imports i }
        {
            let point = sheet_records::point_at(sheet, i);
            Booking {
                number: number_of(point.place),
                amount: point.import,
            }
        },
    )
}

pub fn exports(sheet: &AcceptedSheet<'_>) -> ZoneSums
    ensures { Sums (content_of sheet.now.bytes.now) Exports result.sums }
{
    sum_up(
        sheet.layout.points,
        |i|
            requires { i < sheet.now.layout.points }
            ensures { result ≡ booking_of (content_of sheet.entry.now.bytes.now) Exports i }
        {
            let point = sheet_records::point_at(sheet, i);
            Booking {
                number: number_of(point.place),
                amount: point.export,
            }
        },
    )
}

// The sum of the zones' figures. zones: how many of them the sheet has, since memory is fixed.
pub fn net(figures: &[i64; 32], zones: usize) -> i64
    requires { (zones ≤ 32) × Held figures.now }
    ensures { result ≡ sum_to (figure_at figures.now) zones }
{
    sums::sum_to(zones, |z| figures[z])
}

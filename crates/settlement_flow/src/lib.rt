#![tactic(auto)]
// The settlement flow: the market flow without the lake's circulation (document 02, request 6). Flows are watts.
ghost use Rattle.std.specs.Prelude.{◌≡◌, ◌<◌, ◌≤◌, nat_abs};
ghost use Rattle.std.specs.Int.Signed.{le_z};
ghost use Rattle.records.specs.Content.{circulation};
ghost use Rattle.sheet.specs.Sheet.{content_of};
ghost use Rattle.figures.specs.Flow.{market_flow};
ghost use Rattle.figures.specs.Lake.{has_paths, path_term, path_sum, impact, middle, settlement_flow};
ghost use Rattle.figures.specs.inner.Most.{most_market};

use sheet::AcceptedSheet;

fn has_paths(sheet: &AcceptedSheet<'_>) -> bool
    ensures { result ≡ has_paths (content_of sheet.now.bytes.now) }
{
    0 < sheet.layout.paths
}

fn path_term(sheet: &AcceptedSheet<'_>, around: i64, i: usize) -> i64
    requires { (i < sheet.now.layout.paths) × (around ≡ (circulation (content_of sheet.now.bytes.now)).flow) }
    ensures { result ≡ path_term (content_of sheet.now.bytes.now) i }
{
    let p = sheet_records::path_at(sheet, i);
    (4 * i64::from(p.flow) - around) * i64::from(p.factor) * 10
}

fn path_sum(sheet: &AcceptedSheet<'_>) -> i64
    requires { 0 < sheet.now.layout.paths }
    ensures { result ≡ path_sum (content_of sheet.now.bytes.now) }
{
    let around = i64::from(sheet_records::circulation_at(sheet).flow);
    sums::sum_to(sheet.layout.paths, |i| path_term(sheet, around, i))
}

#[tactic(auto, unfolding(figures::specs::Lake::impact))]
fn impact(sheet: &AcceptedSheet<'_>) -> i64
    requires { 0 < sheet.now.layout.paths }
    ensures { result ≡ impact (content_of sheet.now.bytes.now) }
{
    quotient::rounded_quotient(path_sum(sheet), 4).quotient
}

fn middle(x: i64, y: i64, z: i64) -> i64
    ensures { result ≡ middle le_z x y z }
{
    z.clamp(x.min(y), x.max(y))
}

// watts: the entitlement.
pub fn settlement_flow(sheet: &AcceptedSheet<'_>, market: i64, watts: i64) -> i64
    requires { (market ≡ market_flow (content_of sheet.now.bytes.now)) × (nat_abs market ≤ most_market) }
    ensures { result ≡ settlement_flow (content_of sheet.now.bytes.now) watts }
{
    if !has_paths(sheet) {
        return market;
    }
    let adjusted = market + impact(sheet);
    middle(market, adjusted, watts)
}

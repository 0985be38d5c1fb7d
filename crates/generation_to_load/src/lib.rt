#![tactic(auto)]
// The generation-to-load routine in Schedule D's order: loads (5.2), generation (5.3), then the flow (5.4); document
// 01's steps 1, 2 and 3. It is read beside the schedule: each equation's place and names stand where it is followed.
// Powers are tenths of a MW, flows watts. Loads and generation are written out alike, each beside its own equations:
// one function over both would have no place in the schedule.
mod served;

ghost use Rattle.std.specs.Prelude.{◌≡◌, ◌≤◌, pos, nat_abs, ◌-ℤ◌, ◌*ℤ◌, ◌<ℤ◌};
ghost use Rattle.sheet.specs.Sheet.{content_of};
ghost use Rattle.figures.specs.inner.Most.{most_power, most_weighted, most_share, most_generation_to_load};
ghost use Rattle.generation_to_load.specs.Steps.{loads_of, generation_of, flow_for};
ghost use Rattle.generation_to_load.specs.inner.Divided.{Divided};

pub use served::Served;
use sheet::AcceptedSheet;

// 5.2 Compute RTO Load Served by RTO Generation. Step 1.
// zone_loads has zeros behind the sheet's zones, as the definition has them: memory is fixed, and their number stands
// in the sheet's layout. gross_load is what row 16 judges: loads with losses.
#[derive(Clone, Copy)]
pub struct LoadServed {
    pub zone_loads: [i64; 32],
    pub gross_load: i64,
    pub net_load: i64,
    pub final_load: i64,
}

pub fn loads(sheet: &AcceptedSheet<'_>) -> LoadServed
    ensures { result ≡ loads_of (content_of sheet.now.bytes.now) }
{
    // 5.2, first equation: Zonal_Total_Load = Load + Losses, for each zone
    let total_loads = zone_sums::loads(sheet);
    let gross_load = total_loads.total(sheet.layout.zones);
    // 5.2, second: Zonal_Reduced_Load = Zonal_Total_Load − Import_Schedules of the scheduled lines that sink in the
    // zone. Document 01 calls it zone load.
    let imports = zone_sums::imports(sheet);
    let zone_loads = total_loads.reduced(&imports, sheet.layout.zones);
    // 5.2, third: RTO_Net_Load = the sum of Zonal_Reduced_Load
    let net_load = zone_sums::net(&zone_loads, sheet.layout.zones);
    // 5.2, fourth: RTO_Final_Load = RTO_Net_Load − Import_Schedules of the proxies
    let final_load = net_load - imports.proxies();
    LoadServed {
        zone_loads,
        gross_load,
        net_load,
        final_load,
    }
}

// 5.3 Compute RTO Generation Serving RTO Load. Step 2.
// zone_generation has zeros behind the sheet's zones, as zone_loads has. gross_output is document 01's G.
#[derive(Clone, Copy)]
pub struct GenerationServing {
    pub zone_generation: [i64; 32],
    pub net_generation: i64,
    pub final_generation: i64,
    pub gross_output: i64,
}

pub fn generation(sheet: &AcceptedSheet<'_>) -> GenerationServing
    ensures { result ≡ generation_of (content_of sheet.now.bytes.now) }
{
    // 5.3, first equation: RTO_Gen = the sum of the zone's Gen, for each zone
    let outputs = zone_sums::outputs(sheet);
    let gross_output = outputs.total(sheet.layout.zones);
    // 5.3, second: RTO_Reduced_Gen = RTO_Gen − Export_Schedules of the scheduled lines that source from the zone.
    // Document 01 calls it zone generation.
    let exports = zone_sums::exports(sheet);
    let zone_generation = outputs.reduced(&exports, sheet.layout.zones);
    // 5.3, third: RTO_Net_Gen = the sum of RTO_Reduced_Gen
    let net_generation = zone_sums::net(&zone_generation, sheet.layout.zones);
    // 5.3, fourth: RTO_Final_Gen = RTO_Net_Gen − Export_Schedules of the proxies
    let final_generation = net_generation - exports.proxies();
    GenerationServing {
        zone_generation,
        net_generation,
        final_generation,
        gross_output,
    }
}

// What the flow takes of the two, beside the zone loads.
#[derive(Clone, Copy)]
pub struct Balance {
    pub net_load: i64,
    pub gross_output: i64,
    pub net_generation: i64,
    pub final_generation: i64,
}

// 5.4 Compute the RTO GTL for all M2M Flowgates. Step 3, for a target: the flowgate, 0, or a PAR.
// RTO_GTL = the sum of Gen_Final × (GSF − RTO_LSF). Document 01 rounds two quotients on the way, each after its sum;
// the remainders are theirs.
#[derive(Clone, Copy)]
pub struct GenerationToLoad {
    pub weighted_output: i64,
    pub weighted_load: i64,
    pub load_share: i64,
    pub first_remainder: i64,
    pub gross_flow: i64,
    pub flow: i64,
    pub second_remainder: i64,
}

// target: a number, as in the sheet: 0 the flowgate, k the k-th PAR. A struct of a sheet and its target would be made
// anew for each PAR, which is no plainer.
pub fn flow(served: &Served<'_>, target: usize) -> GenerationToLoad
    requires { target ≤ served.now.sheet.layout.pars }
    ensures { result ≡ flow_for (content_of served.now.sheet.bytes.now) target }
{
    let balance = &served.balance;
    // The sum of Gen × GSF: document 01's A
    let a = weighted_sums::output(&served.sheet, target);
    // 5.2, fifth: Zonal_Weighting = Zonal_Reduced_Load / RTO_Net_Load
    // 5.2, sixth: Zonal_Final_Load = Zonal_Weighting × RTO_Final_Load
    // 5.2, seventh: RTO_LSF = the sum of LSF × Zonal_Final_Load / RTO_Final_Load. RTO_Final_Load cancels:
    // it is N / RTO_Net_Load, N the sum of LSF × Zonal_Reduced_Load
    let n = weighted_sums::weighted_load(&served.sheet, &served.zone_loads, target);
    // The sum of Gen × RTO_LSF: B
    let share = load_share(balance.gross_output, n, balance.net_load);
    // The sum of Gen × (GSF − RTO_LSF): H
    let h = gross_flow(a, share.quotient);
    // 5.3, fifth: Gen_Final = Gen × RTO_Final_Gen / RTO_Net_Gen, one share for all units
    let flow = scaled_down(h, balance.final_generation, balance.net_generation);
    GenerationToLoad {
        weighted_output: a,
        weighted_load: n,
        load_share: share.quotient,
        first_remainder: share.remainder,
        gross_flow: h,
        flow: flow.quotient,
        second_remainder: flow.remainder,
    }
}

// 10 × G × N by RTO_Net_Load.
fn load_share(g: i64, n: i64, net_load: i64) -> quotient::Quotient
    requires { (nat_abs g ≤ most_power) × (nat_abs n ≤ most_weighted) × (pos 0 <ℤ net_load) }
    ensures { Divided result (pos 10 *ℤ g *ℤ n) net_load }
{
    quotient::rounded_quotient(10 * g * n, net_load)
}

// 10 × A − B.
fn gross_flow(a: i64, b: i64) -> i64
    requires { (nat_abs a ≤ most_weighted) × (nat_abs b ≤ most_share) }
    ensures { result ≡ pos 10 *ℤ a -ℤ b }
{
    10 * a - b
}

// H × RTO_Final_Gen by RTO_Net_Gen.
fn scaled_down(h: i64, final_generation: i64, net_generation: i64) -> quotient::Quotient
    requires { (nat_abs h ≤ most_generation_to_load) × (nat_abs final_generation ≤ most_power) × (pos 0 <ℤ net_generation) }
    ensures { Divided result (h *ℤ final_generation) net_generation }
{
    quotient::rounded_quotient(h * final_generation, net_generation)
}

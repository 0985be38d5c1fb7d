#![tactic(auto)]
// Refusals 16 to 21, on the loads and the generation of a sheet.
ghost use Rattle.std.specs.Prelude.{◌≡◌, ◌≤◌, ◌<◌, ◌≤ℤ◌, ◌↔◌, IsTrue, MatchResult, ℕ, pos, length};
ghost use Rattle.rows.specs.Refusals.{number, row_of};
ghost use Rattle.records.specs.Content.{Content};
ghost use Rattle.sheet.specs.Sheet.{content_of};
ghost use Rattle.figures.specs.Balance.{balance_row};
ghost use Rattle.zone_sums.specs.inner.Ledger.{figure_at};
ghost use Rattle.generation_to_load.specs.Steps.{loads_of, generation_of};

use generation_to_load::{Balance, GenerationServing, LoadServed, Served};
use rows::Refusal;
use sheet::AcceptedSheet;

// The most that loads with losses, and outputs, may sum to.
const MOST_GROSS: i64 = 2_000_000;

// Whether no zone's figure is below zero. zones: how many of them the sheet has, since memory is fixed.
#[tactic(auto, unfolding(zone_sums::specs::inner::Ledger::figure_at))]
fn none_below_zero(figures: &[i64; 32], zones: usize) -> bool
    requires { zones ≤ 32 }
    ensures { IsTrue result ↔ ((z : ℕ) → z < zones → pos 0 ≤ℤ figure_at figures.now z) }
{
    figures[..zones].iter().all(|figure| 0 <= *figure)
}

// The first of rows 16 to 21 that is met, downwards.
#[tactic(auto, unfolding(figures::specs::Balance::balance_row))]
pub fn balance_row(
    load: &LoadServed,
    generation: &GenerationServing,
    zones: usize,
) -> Result<(), Refusal>
    requires { zones ≤ 32 }
    ensures { (c : Content) → load.now ≡ loads_of c → generation.now ≡ generation_of c → zones ≡ length c.zones → row_of result ≡ balance_row c }
{
    let gross = (MOST_GROSS < load.gross_load) | (MOST_GROSS < generation.gross_output);
    rows::row(Refusal::GrossTooLarge, gross)?;
    rows::row(
        Refusal::ZoneLoadNegative,
        !none_below_zero(&load.zone_loads, zones),
    )?;
    rows::row(Refusal::FinalLoadNotPositive, load.final_load <= 0)?;
    rows::row(
        Refusal::ZoneGenerationNegative,
        !none_below_zero(&generation.zone_generation, zones),
    )?;
    rows::row(Refusal::NetGenerationZero, generation.net_generation == 0)?;
    rows::row(
        Refusal::FinalGenerationNegative,
        generation.final_generation < 0,
    )
}

// Loads and generation of a sheet, if they meet none of the rows: what the flow takes.
pub fn served<'a>(sheet: &AcceptedSheet<'a>) -> Result<Served<'a>, Refusal>
    ensures { MatchResult result (λ v. (v.sheet.bytes.now ≡ sheet.now.bytes.now) × (v.sheet.layout ≡ sheet.now.layout)) (λ r. number r ≡ balance_row (content_of sheet.now.bytes.now)) }
{
    let load = generation_to_load::loads(sheet);
    let generation = generation_to_load::generation(sheet);
    balance_row(&load, &generation, sheet.layout.zones)?;
    let balance = Balance {
        net_load: load.net_load,
        gross_output: generation.gross_output,
        net_generation: generation.net_generation,
        final_generation: generation.final_generation,
    };
    Ok(Served {
        sheet: *sheet,
        balance,
        zone_loads: load.zone_loads,
    })
}

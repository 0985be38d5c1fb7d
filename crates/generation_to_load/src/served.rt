// A sheet that meets none of rows 16 to 21.
ghost use Rattle.generation_to_load.specs.Steps.{Ready};

use crate::Balance;
use sheet::AcceptedSheet;

// The sheet, and what the flow takes of its loads and its generation. zone_loads has zeros behind the sheet's zones:
// memory is fixed, and their number stands in the sheet's layout.
#[derive(Clone, Copy)]
pub struct Served<'a> {
    pub sheet: AcceptedSheet<'a>,
    pub balance: Balance,
    pub zone_loads: [i64; 32],
    pub ghost ready: { Ready sheet.bytes.now sheet.layout balance zone_loads },
}

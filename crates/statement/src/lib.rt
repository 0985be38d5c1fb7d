#![tactic(auto)]
// The statement of one interval (document 01, 'From balance to flow' and 'The payment'; document 02, request 6).
ghost use Rattle.std.specs.Prelude.{◌≡◌};
ghost use Rattle.statement.specs.Statement.{refused_as};

// refusal: 0, or the number of the row that refuses. Flows and entitlement are watts, the price is cents per MWh,
// amount and payments are thousandths of a cent. The remainders are those of the generation-to-load flow. has_paths:
// whether the sheet has paths and the circulation. settled: the settlement flow; without paths it is the market flow.
// A number and a flag beside the figures, and no `Result`: the struct is the C interface's.
#[repr(C)]
#[derive(Clone, Copy, Default)]
pub struct Statement {
    pub refusal: u8,
    pub name: [u8; 16],
    pub has_paths: bool,
    pub gtl: i64,
    pub first_remainder: i64,
    pub second_remainder: i64,
    pub parallel: i64,
    pub shadow: i64,
    pub common: i64,
    pub noncommon: i64,
    pub market: i64,
    pub settled: i64,
    pub entitlement: i64,
    pub price: i64,
    pub amount: i64,
    pub nyiso: i64,
    pub pjm: i64,
}

// The statement that row n refuses: the number, and zeros everywhere else. No `Refusal`: in the C interface it is n.
pub fn refused(n: u8) -> Statement
    ensures { result ≡ refused_as n }
{
    Statement {
        refusal: n,
        ..Statement::default()
    }
}

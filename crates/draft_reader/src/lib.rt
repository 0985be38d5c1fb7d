#![tactic(auto)]
// The reader of drafts (document 02, requests 3 and 6): a sheet's draft, to be altered and written again,
// or rows 1 to 13 and 28.
ghost use Rattle.std.specs.Prelude.{◌≡◌};
ghost use Rattle.draft_reader.specs.DraftReader.{drafted_from};

use drafts::Draft;

// For the C interface: the number of the refusal, or 0, and the draft: all zeros where the sheet is refused.
#[repr(C)]
#[derive(Drop)]
pub struct Drafted {
    pub refusal: u8,
    pub draft: Draft,
}

pub fn read_draft(s: &[u8]) -> Drafted
    ensures { result ≡ drafted_from s.now }
{
    match sheet::read(s) {
        Err(refused) => Drafted {
            refusal: refused.refusal.number(),
            draft: sheet_drafts::no_draft(),
        },
        Ok(accepted) => Drafted {
            refusal: 0,
            draft: sheet_drafts::draft_of(&accepted),
        },
    }
}

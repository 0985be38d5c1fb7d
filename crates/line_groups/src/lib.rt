#![tactic(auto)]
// Groups of lines of a listing, put at a text's end.
ghost use Rattle.std.specs.Prelude.{◌≡◌, ◌+◌, ◌*◌, ◌≤◌, ◌++◌, length};
ghost use Rattle.printout.specs.Lines.{flow_lines, settled_lines, amount_lines, payment_lines};
ghost use Rattle.lines.specs.inner.Room.{line_room};

use lines::put_line;
use statement::Statement;
use writers::Text;

pub fn put_flows<const N: usize>(text: &mut Text<N>, s: &Statement)
    requires { length text.old + 5 * line_room ≤ N }
    ensures written { text.new ≡ text.old ++ flow_lines s.now.parallel s.now.shadow s.now.common s.now.noncommon s.now.market }
    ensures room { length text.new ≤ length text.old + 5 * line_room }
{
    put_line(text, b"parallel ", s.parallel);
    put_line(text, b"shadow ", s.shadow);
    put_line(text, b"common ", s.common);
    put_line(text, b"noncommon ", s.noncommon);
    put_line(text, b"market ", s.market);
}

// Of a sheet without paths nothing.
#[tactic(auto, unfolding(printout::specs::Lines::settled_lines, writers::specs::Text::ascii))]
pub fn put_settled<const N: usize>(text: &mut Text<N>, s: &Statement)
    requires { length text.old + line_room ≤ N }
    ensures written { text.new ≡ text.old ++ settled_lines s.now.has_paths s.now.settled }
    ensures room { length text.new ≤ length text.old + line_room }
{
    if s.has_paths {
        put_line(text, b"settled ", s.settled);
    }
}

pub fn put_amounts<const N: usize>(text: &mut Text<N>, amount: i64, nyiso: i64, pjm: i64)
    requires { length text.old + 3 * line_room ≤ N }
    ensures written { text.new ≡ text.old ++ amount_lines amount nyiso pjm }
    ensures room { length text.new ≤ length text.old + 3 * line_room }
{
    put_line(text, b"amount ", amount);
    put_line(text, b"NYISO ", nyiso);
    put_line(text, b"PJM ", pjm);
}

pub fn put_payment<const N: usize>(text: &mut Text<N>, s: &Statement)
    requires { length text.old + 5 * line_room ≤ N }
    ensures written { text.new ≡ text.old ++ payment_lines s.now.entitlement s.now.price s.now.amount s.now.nyiso s.now.pjm }
    ensures room { length text.new ≤ length text.old + 5 * line_room }
{
    put_line(text, b"entitlement ", s.entitlement);
    put_line(text, b"price ", s.price);
    put_amounts(text, s.amount, s.nyiso, s.pjm);
}

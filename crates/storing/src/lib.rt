// What is written on a state (clauses 8.1 and 8.9): what is wrong with a Get Length, and laws of the writes.
#![tactic(auto)]

ghost use Rattle.std.specs.Prelude.{◌≡◌, ◌≤◌, length, []};
ghost use Rattle.rules.specs.Page.{service};
ghost use Rattle.rules.specs.Bytes.{part};
ghost use Rattle.rules.specs.Pieces.{named};
ghost use Rattle.rules.specs.Store.{area, writing_in, worse};
ghost use Rattle.rules.specs.Value.{complaint};
ghost use Rattle.variable.specs.View.{viewed};

use rules::Complaint;
use variable::View;

// What is wrong with a Get Length: its number is written, the variables of its list are read.
pub fn length_complaint(view: View, n: u8, from: usize, to: usize) -> Complaint
    requires { to ≤ length view.page.now }
    ensures { result ≡ worse (writing_in (service view.entry.page.now) (area n)) (complaint (viewed view.entry) [] (named (part view.entry.page.now from to))) }
{
    let own = variable::writing(view.page, n);
    let none = slice::part_of(view.page, 0, 0);
    let read = value::complaint_from(view, none, true, from, to);
    variable::worse(own, read)
}

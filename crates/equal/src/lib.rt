// A value held against bytes, with no copy of it (clause 8.5).
#![tactic(auto)]

ghost use Rattle.std.specs.Prelude.{◌≡◌, ◌≤◌, length};
ghost use Rattle.rules.specs.Bytes.{same};
ghost use Rattle.rules.specs.Value.{joined};
ghost use Rattle.variable.specs.View.{viewed};
ghost use Rattle.piece.specs.Piece.{pieces_from};
ghost use Rattle.equal.specs.Passed.{passed};

use rules::Pair;
use variable::View;

// Where bytes go on after others that they begin with, from a place on.
#[tactic(auto, using(crate::proofs::EqualLaws::pass_laws))]
fn pass(bytes: &[u8], at: usize, front: &[u8]) -> Option<usize>
    requires { at ≤ length bytes.now }
    ensures { result ≡ passed bytes.now at front.now }
{
    if bytes.len() - at < front.len() {
        return None;
    }
    let end = at + front.len();
    if leaf::same_bytes(front, &bytes[at..end]) {
        Some(end)
    } else {
        None
    }
}

// A value equals bytes in length and bytes.
#[tactic(auto, using(crate::proofs::EqualLaws::equal_laws, piece::proofs::PieceLaws::less_laws))]
pub fn is_value(view: View, list: bool, from: usize, end: usize, bytes: &[u8]) -> bool
    requires { end ≤ length view.page.now }
    ensures { result ≡ same (joined (viewed view.entry) (pieces_from list view.entry.page.now from end)) bytes.now }
{
    let mut at = from;
    let mut met: usize = 0;
    while at < end {
        match piece::piece_at(list, view.page, at, end) {
            Pair::Text(start, stop) => {
                let Some(next) = pass(bytes, met, slice::part_of(view.page, start, stop)) else {
                    return false;
                };
                met = next;
                at = stop;
            }
            Pair::Number(n, stop) => {
                let Some(next) = pass(bytes, met, variable::value_of(view, n)) else {
                    return false;
                };
                met = next;
                at = stop;
            }
            Pair::Broken => return met == bytes.len(),
        }
    }
    met == bytes.len()
}

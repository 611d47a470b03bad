// Values put together from pairs (clause 6.3) and from Variable Identifier Lists (clauses 7.4 and 8.1).
#![tactic(auto)]

ghost use Rattle.std.specs.Prelude.{◌≡◌, ◌+◌, ◌≤◌, length};
ghost use Rattle.rules.specs.Bytes.{among};
ghost use Rattle.rules.specs.Store.{reading};
ghost use Rattle.rules.specs.Value.{pieces_of, defined, complaint, joined};
ghost use Rattle.pour.specs.Pour.{poured};
ghost use Rattle.variable.specs.View.{viewed};
ghost use Rattle.piece.specs.Piece.{pieces_from};
ghost use Rattle.value.specs.Into.{into};

use rules::{Complaint, Pair, Tlv};
use variable::View;

// What is wrong with a variable of a value; a known number counts as defined.
#[tactic(auto, using(crate::proofs::ComplaintLaws::told_laws))]
fn told(view: View, known: &[u8], n: u8) -> Complaint
    ensures { result ≡ defined (among known.now n) (reading (viewed view.entry) n) }
{
    match variable::reading(view, n) {
        Complaint::Undefined if leaf::among_bytes(known, n) => Complaint::Nothing,
        other => other,
    }
}

// The worst complaint about the variables of a value.
#[inline]
#[tactic(auto, using(crate::proofs::ComplaintLaws::complaint_laws, piece::proofs::PieceLaws::less_laws))]
pub fn complaint_from(view: View, known: &[u8], list: bool, from: usize, end: usize) -> Complaint
    requires { end ≤ length view.page.now }
    ensures { result ≡ complaint (viewed view.entry) known.now (pieces_from list view.entry.page.now from end) }
{
    let mut at = from;
    let mut worst = Complaint::Nothing;
    while at < end {
        match piece::piece_at(list, view.page, at, end) {
            Pair::Text(_, next) => at = next,
            Pair::Number(n, next) => {
                worst = variable::worse(worst, told(view, known, n));
                at = next;
            }
            Pair::Broken => return worst,
        }
    }
    worst
}

// The length of a value.
#[tactic(auto, using(crate::proofs::LengthLaws::length_laws, piece::proofs::PieceLaws::less_laws))]
pub fn length_from(view: View, list: bool, from: usize, end: usize) -> usize
    requires { (end ≤ length view.page.now) × (length view.page.now ≤ 4096) }
    ensures { (result ≡ length (joined (viewed view.entry) (pieces_from list view.entry.page.now from end))) × (result ≤ 17821696) }
{
    let mut at = from;
    let mut sum: usize = 0;
    while at < end {
        match piece::piece_at(list, view.page, at, end) {
            Pair::Text(start, stop) => {
                sum += stop - start;
                at = stop;
            }
            Pair::Number(n, next) => {
                sum += variable::value_of(view, n).len();
                at = next;
            }
            Pair::Broken => return sum,
        }
    }
    sum
}

// A value, poured into out from a place on.
#[tactic(auto, using(crate::proofs::JoinLaws::join_laws, piece::proofs::PieceLaws::less_laws))]
pub fn join_from(view: View, list: bool, from: usize, end: usize, out: &mut [u8], place: usize)
    requires { (end ≤ length view.page.now) × (place + length (joined (viewed view) (pieces_from list view.page.now from end)) ≤ length out.old) }
    ensures { out.new ≡ poured out.old place (joined (viewed view.entry) (pieces_from list view.entry.page.now from end)) }
{
    let mut at = from;
    let mut n = place;
    while at < end {
        match piece::piece_at(list, view.page, at, end) {
            Pair::Text(start, stop) => {
                n = build::append(out, n, slice::part_of(view.page, start, stop));
                at = stop;
            }
            Pair::Number(number, next) => {
                n = build::append(out, n, variable::value_of(view, number));
                at = next;
            }
            Pair::Broken => return,
        }
    }
}

// The worst complaint about the variables of an Inline Value or of a list.
#[tactic(auto, using(crate::proofs::TagLaws::tag_laws))]
pub fn complaint_of(view: View, known: &[u8], tlv: Tlv) -> Complaint
    requires { tlv.stop ≤ length view.page.now }
    ensures { result ≡ complaint (viewed view.entry) known.now (pieces_of view.entry.page.now tlv.tag tlv.start tlv.stop) }
{
    let from = piece::contents_at(view.page, tlv);
    complaint_from(view, known, tlv.tag == 0x0D, from, tlv.stop)
}

// An Inline Value or the variables of a list together, put at the start of out where they have at most 255 bytes; their length.
#[tactic(auto, using(crate::proofs::TagLaws::tag_laws))]
pub fn value_into(view: View, tlv: Tlv, out: &mut [u8; 256]) -> usize
    requires { (tlv.stop ≤ length view.page.now) × (length view.page.now ≤ 4096) }
    ensures { (result ≡ length (joined (viewed view.entry) (pieces_of view.entry.page.now tlv.tag tlv.start tlv.stop))) × (out.new ≡ into out.old (joined (viewed view.entry) (pieces_of view.entry.page.now tlv.tag tlv.start tlv.stop))) }
{
    let from = piece::contents_at(view.page, tlv);
    let list = tlv.tag == 0x0D;
    let n = length_from(view, list, from, tlv.stop);
    if 255 < n {
        return n;
    }
    join_from(view, list, from, tlv.stop, out, 0);
    n
}

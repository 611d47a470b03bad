// A page asked for one class at a time: its first fault.
#![tactic(auto)]

ghost use Rattle.std.specs.Prelude.{◌≡◌, cond, [], ◌∷◌, eqb, ◌≤◌, length};
ghost use Rattle.rules.specs.Tlvs.{tlvs};
ghost use Rattle.rules.specs.Grammar.{cell_of, gap_of};
ghost use Rattle.rules.specs.Shape.{body_of};
ghost use Rattle.rules.specs.Loader.{shape_look, judged_look, look, floor, class_fault, judge_by};
ghost use Rattle.rules.specs.Loader.{lacking as Loader·lacking, walk as Loader·walk, after as Loader·after};

use rules::{Body, Look, Rejection, Tlv};

// The levels of TLVs, the Page TLV being the first.
const LEVELS: usize = 8;

// A TLV as classes 2 and 3 see it.
#[tactic(auto, using(crate::proofs::LookLaws::shape_laws))]
fn shape_look(s: &[u8], within: usize, tlv: Tlv) -> Look
    requires stop_in_bounds { tlv.stop ≤ length s.now }
    requires start_le_stop { tlv.start ≤ tlv.stop }
    ensures { result ≡ shape_look (body_of s.now within tlv.tag tlv.start tlv.stop) }
{
    match shape::body_of(s, within, tlv) {
        Body::Short => Look::Fault,
        Body::Leaf => Look::Over,
        Body::Inner(kind, p) => Look::Into(kind, p),
    }
}

// A TLV as the other classes see it, where it is neither at fault nor beyond the base.
#[tactic(auto, using(crate::proofs::LookLaws::judged_laws))]
fn judged_look(s: &[u8], within: usize, tlv: Tlv) -> Look
    requires stop_in_bounds { tlv.stop ≤ length s.now }
    requires start_le_stop { tlv.start ≤ tlv.stop }
    ensures { result ≡ judged_look (body_of s.now within tlv.tag tlv.start tlv.stop) }
{
    match shape::body_of(s, within, tlv) {
        Body::Inner(kind, p) if kind != grammar::COMMAND => Look::Into(kind, p),
        _ => Look::Over,
    }
}

// A TLV as a class sees it: at fault, passed over, or gone into.
#[tactic(auto, using(crate::proofs::LookLaws::look_laws))]
fn look_at(
    s: &[u8],
    class: u8,
    within: usize,
    last: u8,
    cell: u8,
    from: usize,
    at: usize,
    tlv: Tlv,
) -> Look
    requires at_in_bounds { at ≤ length s.now }
    requires stop_in_bounds { tlv.stop ≤ length s.now }
    requires start_le_stop { tlv.start ≤ tlv.stop }
    ensures { result ≡ look s.now class within last cell from at tlv.tag tlv.start tlv.stop }
{
    if class < 4 {
        return shape_look(s, within, tlv);
    }
    let beyond = forms::beyond_at(s, within, tlv);
    if class == 7 {
        if beyond {
            Look::Fault
        } else {
            judged_look(s, within, tlv)
        }
    } else if forms::faulty(s, class, within, last, cell, from, at, tlv) {
        Look::Fault
    } else if beyond {
        Look::Over
    } else {
        judged_look(s, within, tlv)
    }
}

// Where a TLV stands among the parts of its container: class 4 alone asks.
#[tactic(auto, using(leaf::proofs::Cases::cases))]
fn cell_for(class: u8, within: usize, tag: u8) -> u8
    ensures { result ≡ cond (eqb class 4) (cell_of within tag) 0 }
{
    if class == 4 {
        grammar::cell_of(within, tag)
    } else {
        0
    }
}

// Below the eighth level: class 3 is at the first byte that would be a tag.
#[tactic(auto, using(leaf::proofs::Cases::cases), unfolding(rules::specs::Loader::floor))]
fn floor_of(class: u8, within: usize, from: usize, end: usize) -> Option<usize>
    requires { from ≤ end }
    ensures { result ≡ floor class within from end }
{
    let gap = grammar::gap_of(within);
    if class == 3 && gap < end - from {
        Some(from + gap)
    } else {
        None
    }
}

// Class 4: a part that must stand in a container stands nowhere in it.
#[tactic(auto, unfolding(rules::specs::Loader::lacking))]
fn lacking(s: &[u8], class: u8, within: usize, from: usize, end: usize) -> bool
    requires end_in_bounds { end ≤ length s.now }
    requires from_le_end { from ≤ end }
    ensures { result ≡ Loader·lacking class within end (tlvs (gap_of within) s.now from end) }
{
    class == 4 && grammar::lacks(s, within, from, end)
}

// The first fault of a class in a container whose tag stands at `own`, with so many levels left.
#[tactic(auto, using(crate::proofs::WalkLaws::walk_laws))]
pub fn walk(
    s: &[u8],
    class: u8,
    within: usize,
    own: usize,
    from: usize,
    end: usize,
    left: usize,
) -> Option<usize>
    requires end_in_bounds { end ≤ length s.now }
    requires from_le_end { from ≤ end }
    ensures { result ≡ Loader·walk left s.now class within own from end }
{
    if left == 0 {
        return floor_of(class, within, from, end);
    }
    if lacking(s, class, within, from, end) {
        return Some(own);
    }
    let gap = grammar::gap_of(within);
    let mut at = from;
    let mut last: u8 = 0;
    while gap < end - at {
        let place = at + gap;
        let Some(tlv) = reader::head_at(s, place, end) else {
            return Some(place);
        };
        let cell = cell_for(class, within, tlv.tag);
        match look_at(s, class, within, last, cell, from, place, tlv) {
            Look::Fault => return Some(place),
            Look::Over => {}
            Look::Into(kind, p) => {
                if let Some(q) = walk(s, class, kind, place, p, tlv.stop, left - 1) {
                    return Some(q);
                }
            }
        }
        last = cell;
        at = tlv.stop;
    }
    None
}

// Bytes after the page are class 2's.
#[tactic(auto, unfolding(rules::specs::Loader::after))]
fn after(s: &[u8], class: u8, stop: usize) -> Option<usize>
    ensures { result ≡ Loader·after s.now class stop }
{
    if class == 2 && stop < s.len() {
        Some(stop)
    } else {
        None
    }
}

// The first fault of a class in a page whose TLV stops at a place.
#[tactic(auto, using(crate::proofs::StructureLaws::class_laws))]
pub fn class_fault(s: &[u8], class: u8, stop: usize) -> Option<usize>
    requires { stop ≤ length s.now }
    ensures { result ≡ class_fault s.now class stop }
{
    match walk(s, class, grammar::WHOLE, 0, 0, stop, LEVELS) {
        Some(p) => Some(p),
        None => after(s, class, stop),
    }
}

// Classes 2 and 3. What class 2 finds inside the page class 3 finds too, so that a page without a fault is walked once for both.
#[tactic(auto, using(crate::proofs::StructureLaws::structure_laws))]
pub fn structure(s: &[u8], stop: usize) -> Result<(), Rejection>
    requires { stop ≤ length s.now }
    ensures { result ≡ judge_by s.now (2 ∷ 3 ∷ []) stop }
{
    match class_fault(s, 3, stop) {
        None => match after(s, 2, stop) {
            None => Ok(()),
            Some(place) => Err(Rejection { class: 2, place }),
        },
        Some(q) => match class_fault(s, 2, stop) {
            None => Err(Rejection { class: 3, place: q }),
            Some(place) => Err(Rejection { class: 2, place }),
        },
    }
}

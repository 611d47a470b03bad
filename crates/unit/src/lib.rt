// The navigation units of an accepted page (clause 7.2). Every function is total on any bytes.
#![tactic(auto)]

ghost use Rattle.std.specs.Prelude.{◌≡◌, ◌≤◌, length};
ghost use Rattle.rules.specs.Tlvs.{tlvs};
ghost use Rattle.rules.specs.Page.{unit_at, unit_count, anchor, unrecorded, is_code, entry_in, entry_of, is_place_in, is_place, code_at};
ghost use Rattle.page.specs.Span.{span_of};
ghost use Rattle.unit.specs.Nth.{nth_in};

use rules::{Span, Tlv};

// The n-th TLV, from 0, that has a tag, with attributes or without.
#[tactic(auto, using(crate::proofs::Nths::nth_laws, tlv::proofs::Bounds::next_laws))]
pub fn nth_tag(s: &[u8], tag: u8, n: usize, from: usize, end: usize) -> Option<Tlv>
    requires { end ≤ length s.now }
    ensures { result ≡ nth_in tag n (tlvs 0 s.now from end) }
{
    let mut at = from;
    let mut left = n;
    while let Some(tlv) = tlv::head_at(s, at, end) {
        if tlv.tag % 128 == tag {
            if left == 0 {
                return Some(tlv);
            }
            left -= 1;
        }
        at = tlv.stop;
    }
    None
}

// The k-th unit.
#[tactic(auto, using(page::proofs::Parts::page_row_inside, crate::proofs::Nths::unit_found))]
pub fn unit_at(s: &[u8], k: usize) -> Option<Tlv>
    ensures { result ≡ unit_at s.now k }
{
    let row = page::page_row(s);
    nth_tag(s, 0x0A, k, row.from, row.end)
}

// How many units there are.
#[tactic(auto, using(crate::proofs::Units::count_found, page::proofs::Parts::page_row_inside))]
pub fn unit_count(s: &[u8]) -> usize
    ensures { result ≡ unit_count s.now }
{
    let row = page::page_row(s);
    tlv::count_tag(s, 0x0A, row.from, row.end)
}

// Where the TLVs of the k-th unit stand.
#[tactic(auto, using(page::proofs::Spans::span_laws, crate::proofs::Nths::unit_stop))]
pub fn unit_row(s: &[u8], k: usize) -> Span
    ensures { result ≡ span_of s.now (unit_at s.now k) }
{
    match unit_at(s, k) {
        Some(tlv) => Span {
            from: tlv::content_at(s, tlv),
            end: tlv.stop,
        },
        None => Span { from: 0, end: 0 },
    }
}

// The anchor of the k-th unit (clause 7.2.2).
#[tactic(auto, using(crate::proofs::Units::unit_row_laws))]
pub fn anchor(s: &[u8], k: usize) -> Option<Span>
    ensures { result ≡ anchor s.now k }
{
    let row = unit_row(s, k);
    page::part_in(s, 0x0B, row.from, row.end)
}

// The k-th unit is kept out of the history (clause 7.2.1).
#[tactic(auto, using(crate::proofs::Units::unit_laws, crate::proofs::Nths::unit_stop))]
pub fn unrecorded(s: &[u8], k: usize) -> bool
    ensures { result ≡ unrecorded s.now k }
{
    match unit_at(s, k) {
        Some(tlv) => tlv::attribute_of(s, tlv) % 2 == 1,
        None => false,
    }
}

// A TLV of a unit is a byte code: neither its anchor nor a modifier.
#[tactic(auto, unfolding(rules::specs::Page::is_code, rules::specs::Tlvs::plain))]
fn is_code(tag: u8) -> bool
    ensures { result ≡ is_code tag }
{
    tag != 0x0B && tag % 128 != 0x08
}

// The place of the first byte code, or of the end.
#[tactic(auto, using(crate::proofs::Units::entry_laws, tlv::proofs::Bounds::next_laws))]
fn entry_in(s: &[u8], from: usize, end: usize) -> usize
    requires { end ≤ length s.now }
    ensures { result ≡ entry_in (tlvs 0 s.now from end) }
{
    let mut at = from;
    while let Some(tlv) = tlv::head_at(s, at, end) {
        if is_code(tlv.tag) {
            return at;
        }
        at = tlv.stop;
    }
    at
}

// Where the k-th unit is entered.
#[tactic(auto, using(crate::proofs::Units::unit_row_laws))]
pub fn entry_of(s: &[u8], k: usize) -> usize
    ensures { result ≡ entry_of s.now k }
{
    let row = unit_row(s, k);
    entry_in(s, row.from, row.end)
}

// A place is that of a byte code, or the end.
#[tactic(auto, using(crate::proofs::Units::place_laws, tlv::proofs::Bounds::next_laws))]
fn is_place_in(s: &[u8], place: usize, from: usize, end: usize) -> bool
    requires { end ≤ length s.now }
    ensures { result ≡ is_place_in place (tlvs 0 s.now from end) }
{
    let mut at = from;
    while at < end {
        let Some(tlv) = tlv::head_at(s, at, end) else {
            return false;
        };
        if is_code(tlv.tag) && place == at {
            return true;
        }
        at = tlv.stop;
    }
    place == at
}

// A place is that of a byte code of the k-th unit, or the unit's end.
#[tactic(auto, using(crate::proofs::Units::unit_row_laws))]
pub fn is_place(s: &[u8], k: usize, place: usize) -> bool
    ensures { result ≡ is_place s.now k place }
{
    let row = unit_row(s, k);
    is_place_in(s, place, row.from, row.end)
}

// The byte code at a place of the k-th unit; Past at the unit's end.
#[tactic(auto, using(crate::proofs::Units::unit_laws, crate::proofs::Nths::unit_stop))]
pub fn code_at(s: &[u8], k: usize, place: usize) -> Option<Tlv>
    ensures { result ≡ code_at s.now k place }
{
    let tlv = unit_at(s, k)?;
    tlv::head_at(s, place, tlv.stop)
}

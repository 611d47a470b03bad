// What stands at a place of a page or of a response: lengths, TLVs, pairs, attribute bytes (clauses 5 and 6.3).
#![tactic(auto)]

ghost use Rattle.std.specs.Prelude.{◌≡◌, ◌≤◌, ◌-◌, length};
ghost use Rattle.rules.specs.Tlv.{length_at, head_at};
ghost use Rattle.rules.specs.Tlvs.{tlvs, count};
ghost use Rattle.rules.specs.Pieces.{indicates, pair_at, pieces, filled};
ghost use Rattle.rules.specs.Shape.{attributes_in, attributes_end, attribute};
ghost use Rattle.rules.specs.Page.{content_at};

use rules::{Pair, Tlv};

// The length at a place, before an end.
#[tactic(auto, unfolding(rules::specs::Tlv::length_at))]
pub fn length_at(s: &[u8], at: usize, end: usize) -> Option<(usize, usize)>
    requires { end ≤ length s.now }
    ensures { result ≡ length_at s.now at end }
{
    if end <= at {
        return None;
    }
    let b = s[at];
    if b < 0x80 {
        return Some((leaf::wide(b), at + 1));
    }
    match b {
        0x81 if 2 <= end - at => Some((leaf::wide(s[at + 1]), at + 2)),
        0x82 if 3 <= end - at => Some((leaf::pair(s[at + 1], s[at + 2]), at + 3)),
        _ => None,
    }
}

// The TLV at a place, before an end.
#[tactic(auto, using(crate::proofs::Ways::head_laws))]
pub fn head_at(s: &[u8], at: usize, end: usize) -> Option<Tlv>
    requires { end ≤ length s.now }
    ensures { result ≡ head_at s.now at end }
{
    if end <= at {
        return None;
    }
    let Some((n, start)) = length_at(s, at + 1, end) else {
        return None;
    };
    if end - start < n {
        return None;
    }
    Some(Tlv {
        tag: s[at],
        start,
        stop: start + n,
    })
}

// A variable's number follows this byte, where pairs are substitution pairs (clause 6.3).
#[tactic(auto, unfolding(rules::specs::Pieces::indicates))]
fn indicates(substituted: bool, b: u8) -> bool
    ensures { result ≡ indicates substituted b }
{
    substituted && matches!(b, 0xC0..=0xC7)
}

// The pair at a place, before an end.
#[tactic(auto, using(crate::proofs::Ways::pair_laws))]
pub fn pair_at(substituted: bool, s: &[u8], at: usize, end: usize) -> Pair
    requires { end ≤ length s.now }
    ensures { result ≡ pair_at substituted s.now at end }
{
    if end <= at {
        return Pair::Broken;
    }
    if indicates(substituted, s[at]) {
        if end - at < 2 {
            return Pair::Broken;
        }
        return Pair::Number(s[at + 1], at + 2);
    }
    let Some((n, from)) = length_at(s, at, end) else {
        return Pair::Broken;
    };
    if end - from < n {
        return Pair::Broken;
    }
    Pair::Text(from, from + n)
}

// The pairs from a place on fill a value up to its end.
#[tactic(auto, using(crate::proofs::Ways::fill_laws, crate::proofs::Bounds::shorter_laws))]
pub fn pairs_fill(substituted: bool, s: &[u8], from: usize, end: usize) -> bool
    requires { end ≤ length s.now }
    ensures { result ≡ filled (pieces substituted s.now from end) }
{
    let mut at = from;
    while at < end {
        at = match pair_at(substituted, s, at, end) {
            Pair::Text(_, next) | Pair::Number(_, next) => next,
            Pair::Broken => return false,
        };
    }
    true
}

// The place after the attribute bytes that stand from a place on.
#[tactic(auto, using(crate::proofs::Ways::attribute_laws))]
fn attributes_in(s: &[u8], from: usize, end: usize) -> Option<usize>
    requires { end ≤ length s.now }
    ensures { result ≡ attributes_in (end - from) s.now from }
{
    for at in from..end {
        if s[at] < 0x80 {
            return Some(at + 1);
        }
    }
    None
}

// The place after the attribute bytes of a value.
#[tactic(auto, unfolding(rules::specs::Shape::attributes_end))]
pub fn attributes_end(s: &[u8], tlv: Tlv) -> Option<usize>
    requires { tlv.stop ≤ length s.now }
    ensures { result ≡ attributes_end s.now tlv.tag tlv.start tlv.stop }
{
    if tlv.tag < 0x80 {
        Some(tlv.start)
    } else {
        attributes_in(s, tlv.start, tlv.stop)
    }
}

// The first attribute byte of a value, 0 where there is none.
#[tactic(auto, unfolding(rules::specs::Shape::attribute))]
pub fn attribute_of(s: &[u8], tlv: Tlv) -> u8
    requires { tlv.stop ≤ length s.now }
    ensures { result ≡ attribute s.now tlv.tag tlv.start tlv.stop }
{
    if tlv.tag < 0x80 || tlv.stop <= tlv.start {
        return 0;
    }
    s[tlv.start]
}

// Where a value goes on after its attributes: its end where they run past it.
#[tactic(auto, unfolding(rules::specs::Page::content_at, rules::specs::Page::spot_or))]
pub fn content_at(s: &[u8], tlv: Tlv) -> usize
    requires { tlv.stop ≤ length s.now }
    ensures { result ≡ content_at s.now tlv.tag tlv.start tlv.stop }
{
    attributes_end(s, tlv).unwrap_or(tlv.stop)
}

// How many TLVs have a tag, with attributes or without.
#[tactic(auto, using(crate::proofs::Bounds::next_laws, crate::proofs::Ways::count_laws), unfolding(rules::specs::Tlvs::count))]
pub fn count_tag(s: &[u8], tag: u8, from: usize, end: usize) -> usize
    requires { end ≤ length s.now }
    ensures { result ≡ count tag (tlvs 0 s.now from end) }
{
    let mut at = from;
    let mut n: usize = 0;
    while let Some(tlv) = head_at(s, at, end) {
        if tlv.tag % 128 == tag {
            n += 1;
        }
        at = tlv.stop;
    }
    n
}

// The parts of an accepted page (clause 7.1). Every function is total on any bytes.
#![tactic(auto)]

ghost use Rattle.std.specs.Prelude.{◌≡◌, false, ◌≤◌, length};
ghost use Rattle.rules.specs.Tlvs.{tlvs};
ghost use Rattle.rules.specs.Pieces.{pieces};
ghost use Rattle.rules.specs.Page.{page_head, part_in, page_part, attribute_of, type_of, keeps_all, page_type, unlock, password, keep_list, element_in, element};
ghost use Rattle.page.specs.Span.{span_of};

use rules::{Pair, Span, Tlv};

// The page's own TLV.
#[tactic(auto, unfolding(rules::specs::Page::page_head))]
pub fn page_head(s: &[u8]) -> Option<Tlv>
    ensures { result ≡ page_head s.now }
{
    tlv::head_at(s, 0, s.len())
}

// Where the page's parts stand.
#[tactic(auto, using(crate::proofs::Spans::span_laws))]
pub fn page_row(s: &[u8]) -> Span
    ensures { result ≡ span_of s.now (page_head s.now) }
{
    match page_head(s) {
        Some(tlv) => Span {
            from: tlv::content_at(s, tlv),
            end: tlv.stop,
        },
        None => Span { from: 0, end: 0 },
    }
}

// The first TLV with a tag, of those from a place up to an end.
#[tactic(auto, using(tlv::proofs::Bounds::next_laws, crate::proofs::Parts::part_laws))]
pub fn part_in(s: &[u8], tag: u8, from: usize, end: usize) -> Option<Span>
    requires { end ≤ length s.now }
    ensures { result ≡ part_in tag (tlvs 0 s.now from end) }
{
    let mut at = from;
    while let Some(tlv) = tlv::head_at(s, at, end) {
        if tlv.tag == tag {
            return Some(Span {
                from: tlv.start,
                end: tlv.stop,
            });
        }
        at = tlv.stop;
    }
    None
}

// The part of the page with a tag.
#[tactic(auto, using(crate::proofs::Parts::page_part_laws))]
pub fn page_part(s: &[u8], tag: u8) -> Option<Span>
    ensures { result ≡ page_part s.now tag }
{
    let row = page_row(s);
    part_in(s, tag, row.from, row.end)
}

// The page's first attribute byte.
#[tactic(auto, using(crate::proofs::Parts::attribute_laws))]
fn page_attribute(s: &[u8]) -> u8
    ensures { result ≡ attribute_of s.now (page_head s.now) }
{
    match page_head(s) {
        Some(tlv) => tlv::attribute_of(s, tlv),
        None => 0,
    }
}

// All temporary variables are kept for the next page (clause 7.1.1).
#[tactic(auto, unfolding(rules::specs::Page::keeps_all))]
pub fn keeps_all(s: &[u8]) -> bool
    ensures { result ≡ keeps_all s.now }
{
    page_attribute(s) % 2 == 1
}

// A value type as it counts (clause 6.2).
#[tactic(auto, unfolding(rules::specs::Page::type_of))]
pub fn type_of(x: u8) -> u8
    ensures { result ≡ type_of x }
{
    if x < 5 { x } else { 0 }
}

// The value type of the page's strings (clause 7.1.1).
#[tactic(auto, unfolding(rules::specs::Page::page_type))]
pub fn page_type(s: &[u8]) -> u8
    ensures { result ≡ page_type s.now }
{
    type_of(page_attribute(s) / 2 % 8)
}

// The page identification (clause 7.1.2).
pub fn identification(s: &[u8]) -> Option<Span>
    ensures { result ≡ page_part s.now 0x02 }
{
    page_part(s, 0x02)
}

// The Page Unlock without its first byte, which is ignored (clause 7.1.3).
#[tactic(auto, using(crate::proofs::Parts::unlock_laws))]
pub fn unlock(s: &[u8]) -> Option<Span>
    ensures { result ≡ unlock s.now }
{
    let span = page_part(s, 0x03)?;
    Some(Span {
        from: span.from + 1,
        end: span.end,
    })
}

// The One Time Password (clause 7.1.4).
#[tactic(auto, unfolding(rules::specs::Page::password))]
pub fn password(s: &[u8]) -> Option<Span>
    ensures { result ≡ password s.now }
{
    page_part(s, 0x04)
}

// The Keep Alive List (clause 7.1.5).
#[tactic(auto, unfolding(rules::specs::Page::keep_list))]
pub fn keep_list(s: &[u8]) -> Option<Span>
    ensures { result ≡ keep_list s.now }
{
    page_part(s, 0x05)
}

// The Service ID (clause 7.1.6).
pub fn service(s: &[u8]) -> Option<Span>
    ensures { result ≡ page_part s.now 0x06 }
{
    page_part(s, 0x06)
}

// The n-th text, from 0, of the length-value pairs from a place up to an end.
#[tactic(auto, using(crate::proofs::Parts::element_in_laws, tlv::proofs::Bounds::shorter_laws))]
fn element_in(s: &[u8], n: usize, from: usize, end: usize) -> Option<Span>
    requires { end ≤ length s.now }
    ensures { result ≡ element_in n (pieces false s.now from end) }
{
    let mut at = from;
    let mut left = n;
    while at < end {
        match tlv::pair_at(false, s, at, end) {
            Pair::Text(start, stop) => {
                if left == 0 {
                    return Some(Span {
                        from: start,
                        end: stop,
                    });
                }
                left -= 1;
                at = stop;
            }
            Pair::Number(_, next) => at = next,
            Pair::Broken => return None,
        }
    }
    None
}

// An element of the string pool, the first being number 0 (clauses 6.1.4 and 7.1.7).
#[tactic(auto, using(crate::proofs::Parts::element_laws))]
pub fn element(s: &[u8], n: usize) -> Option<Span>
    ensures { result ≡ element s.now n }
{
    let span = page_part(s, 0x07)?;
    element_in(s, n, span.from, span.end)
}

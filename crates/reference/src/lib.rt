// Anchor references, split and resolved on a page (clauses 7.2.2 and 7.3).
#![tactic(auto)]

ghost use Rattle.std.specs.Prelude.{◌≡◌, ◌≤◌, length};
ghost use Rattle.rules.specs.Tlvs.{tlvs};
ghost use Rattle.rules.specs.Page.{part_in, holds};
ghost use Rattle.rules.specs.Reference.{mark, unit_from, own_unit, is_own, target};

use rules::Target;

// The place of the last '23'.
pub fn mark(r: &[u8]) -> Option<usize>
    ensures { result ≡ mark r.now }
{
    r.iter().rposition(|b| *b == 0x23)
}

// The first TLV with a tag holds just these bytes.
#[inline]
#[tactic(auto, using(crate::proofs::Targets::holds_laws))]
pub fn part_is(s: &[u8], tag: u8, from: usize, end: usize, name: &[u8]) -> bool
    requires { end ≤ length s.now }
    ensures { result ≡ holds s.now name.now (part_in tag (tlvs 0 s.now from end)) }
{
    match page::part_in(s, tag, from, end) {
        Some(span) => leaf::same_bytes(&s[span.from..span.end], name),
        None => false,
    }
}

// The unit that holds an anchor, of those from a place up to an end.
#[tactic(auto, using(crate::proofs::Targets::from_laws, tlv::proofs::Bounds::next_laws))]
fn unit_from(s: &[u8], name: &[u8], from: usize, end: usize) -> Target
    requires { end ≤ length s.now }
    ensures { result ≡ unit_from s.now name.now 0 (tlvs 0 s.now from end) }
{
    let mut at = from;
    let mut k: usize = 0;
    while let Some(tlv) = tlv::head_at(s, at, end) {
        if tlv.tag % 128 == 0x0A {
            let content = tlv::content_at(s, tlv);
            if part_is(s, 0x0B, content, tlv.stop, name) {
                return Target::Unit(k);
            }
            k += 1;
        }
        at = tlv.stop;
    }
    Target::Lacking
}

// The unit of the page that an anchor names: the first one where it is empty.
#[tactic(auto, using(crate::proofs::Targets::own_laws, page::proofs::Parts::page_row_inside))]
fn own_unit(s: &[u8], name: &[u8]) -> Target
    ensures { result ≡ own_unit s.now name.now }
{
    if name.is_empty() {
        return Target::Unit(0);
    }
    let row = page::page_row(s);
    unit_from(s, name, row.from, row.end)
}

// The page part of a reference means this page: it is empty, or the page's identification.
#[tactic(auto, using(crate::proofs::Targets::own_laws, page::proofs::Parts::page_row_inside))]
fn is_own(s: &[u8], name: &[u8]) -> bool
    ensures { result ≡ is_own s.now name.now }
{
    if name.is_empty() {
        return true;
    }
    let row = page::page_row(s);
    part_is(s, 0x02, row.from, row.end, name)
}

// What a reference means on a page.
#[tactic(auto, using(crate::proofs::Marks::place_laws, crate::proofs::Targets::target_laws))]
pub fn target(s: &[u8], r: &[u8]) -> Target
    ensures { result ≡ target s.now r.now }
{
    match mark(r) {
        Some(n) if is_own(s, &r[..n]) => own_unit(s, &r[n + 1..]),
        _ => Target::Other,
    }
}

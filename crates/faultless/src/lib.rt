// One walk that settles a page without a fault: every class at once.
#![tactic(auto)]

ghost use Rattle.std.specs.Prelude.{◌≡◌, true, cond, eqb, ◌≤◌, ◌<◌, ◌-◌, length};
ghost use Rattle.rules.specs.Tlvs.{plain};
ghost use Rattle.faultless.specs.Clean.{Admitted, Settled, Agreed, slot_of, anchor_slot, FreshIf, Clean, PartClean, RowClean, PageClean};

use rules::{Body, Look, Tlv};

// The levels from that of the page's parts on, and from that of a unit's TLVs on.
const PAGE_LEVELS: usize = 7;

const UNIT_LEVELS: usize = 6;

// How many slots the names of anchors fall into.
const SLOTS: usize = 1024;

// The most units of a page, and modifiers in force.
const UNITS: usize = 64;

const MODIFIERS: usize = 32;

// Units and modifiers that a count of those left has room for, and the anchor where a unit's stands; no other place holds them.
#[tactic(auto, using(crate::proofs::CleanLaws::admitted_laws))]
fn is_admitted(
    anchor: usize,
    gap: usize,
    units: usize,
    modifiers: usize,
    at: usize,
    tag: u8,
) -> bool
    ensures { result ≡ true → Admitted anchor gap units modifiers at tag }
{
    if tag == 0x0B {
        at == anchor
    } else if tag % 128 == 0x0A {
        gap == 0 && 0 < units
    } else if tag % 128 == 0x08 {
        gap == 0 && 0 < modifiers
    } else {
        true
    }
}

// How many TLVs with a tag may still stand after one of some tag.
#[tactic(auto, using(crate::proofs::CleanLaws::after_laws))]
fn left_after(left: usize, counted: u8, tag: u8) -> usize
    ensures { result ≡ cond (eqb (plain tag) counted) (left - 1) left }
{
    if tag % 128 == counted {
        left.saturating_sub(1)
    } else {
        left
    }
}

// A TLV that is neither at fault nor beyond the base, as the classes from 4 on see it; `Fault` where class 3 may see another. Inside '46' class 3
// alone looks, with so many levels left below.
#[tactic(auto, using(crate::proofs::CleanLaws::settled_laws))]
fn settled_look(s: &[u8], within: usize, at: usize, tlv: Tlv, below: usize) -> Look
    requires stop_in_bounds { tlv.stop ≤ length s.now }
    requires start_le_stop { tlv.start ≤ tlv.stop }
    ensures { (result ≡ Look.Fault → ⊥) → Settled s.now within at tlv.tag tlv.start tlv.stop below result }
{
    match shape::body_of(s, within, tlv) {
        Body::Short => Look::Fault,
        Body::Leaf => Look::Over,
        Body::Inner(kind, p) => {
            if kind != grammar::COMMAND {
                Look::Into(kind, p)
            } else if classes::walk(s, 3, kind, at, p, tlv.stop, below).is_none() {
                Look::Over
            } else {
                Look::Fault
            }
        }
    }
}

// A TLV as all the classes from 3 on see it, `Fault` where they may differ.
#[tactic(auto, using(crate::proofs::CleanLaws::agreed_laws))]
fn clean_look(
    s: &[u8],
    within: usize,
    anchor: usize,
    gap: usize,
    units: usize,
    modifiers: usize,
    last: u8,
    cell: u8,
    at: usize,
    tlv: Tlv,
    below: usize,
) -> Look
    requires stop_in_bounds { tlv.stop ≤ length s.now }
    requires start_le_stop { tlv.start ≤ tlv.stop }
    ensures { (result ≡ Look.Fault → ⊥) → Agreed s.now within anchor gap units modifiers last cell at tlv.tag tlv.start tlv.stop below result }
{
    if is_admitted(anchor, gap, units, modifiers, at, tlv.tag)
        && forms::is_sound(s, within, last, cell, at, tlv)
    {
        settled_look(s, within, at, tlv, below)
    } else {
        Look::Fault
    }
}

// No class from 3 on finds a fault in a container, where an anchor may stand at one place and some modifiers.
fn clean(
    s: &[u8],
    within: usize,
    anchor: usize,
    room: usize,
    from: usize,
    end: usize,
    left: usize,
) -> bool
    requires end_in_bounds { end ≤ length s.now }
    requires from_le_end { from ≤ end }
    ensures { result ≡ true → Clean s.now within anchor room from end left }
{
    if left == 0 {
        return end - from <= grammar::gap_of(within);
    }
    if grammar::lacks(s, within, from, end) {
        return false;
    }
    let gap = grammar::gap_of(within);
    let mut at = from;
    let mut last: u8 = 0;
    let mut modifiers = room;
    while gap < end - at {
        let place = at + gap;
        let Some(tlv) = reader::head_at(s, place, end) else {
            return false;
        };
        let cell = grammar::cell_of(within, tlv.tag);
        let fewer = left_after(modifiers, 0x08, tlv.tag);
        match clean_look(
            s,
            within,
            anchor,
            gap,
            0,
            modifiers,
            last,
            cell,
            place,
            tlv,
            left - 1,
        ) {
            Look::Fault => return false,
            Look::Over => {}
            Look::Into(kind, p) => {
                if !clean(s, kind, tlv.stop, 0, p, tlv.stop, left - 1) {
                    return false;
                }
            }
        }
        modifiers = fewer;
        last = cell;
        at = tlv.stop;
    }
    true
}

// The slot of a name: equal names have the same.
#[tactic(auto, using(crate::proofs::SlotLaws::slot_laws))]
fn slot_of(name: &[u8]) -> usize
    ensures { (result ≡ slot_of name.now) × (result < 1024) }
{
    let mut slot: usize = 0;
    for &b in name {
        slot = (slot * 31 + leaf::wide(b)) % SLOTS;
    }
    slot
}

// The slot of a unit's anchor; the one after all slots where a TLV has none.
#[tactic(auto, using(crate::proofs::SlotLaws::anchor_slot_laws))]
fn anchor_slot(s: &[u8], tlv: Tlv) -> usize
    requires { tlv.stop ≤ length s.now }
    ensures { (result ≡ anchor_slot s.now tlv.tag tlv.start tlv.stop) × (result < 1025) }
{
    if tlv.tag % 128 != 0x0A {
        return SLOTS;
    }
    match page::part_in(s, 0x0B, tlv::content_at(s, tlv), tlv.stop) {
        Some(span) => slot_of(&s[span.from..span.end]),
        None => SLOTS,
    }
}

// The anchor that a unit begins with is not bad. Where its slot is not seen yet no earlier one is equal.
#[tactic(auto, using(crate::proofs::PageLaws::fresh_laws, tlv::proofs::Bounds::next_laws))]
fn anchor_clean(s: &[u8], seen: u8, from: usize, end: usize) -> bool
    requires { end ≤ length s.now }
    ensures { result ≡ true → FreshIf s.now seen from end }
{
    let Some(tlv) = reader::head_at(s, from, end) else {
        return true;
    };
    if tlv.tag != 0x0B {
        true
    } else if seen == 0 {
        reference::mark(&s[tlv.start..tlv.stop]).is_none()
    } else {
        !forms::bad_anchor(s, from, tlv)
    }
}

// No class from 3 on finds a fault in what a part of the page holds, a unit with room for so many modifiers.
#[tactic(auto, using(crate::proofs::PageLaws::part_laws))]
fn part_clean(s: &[u8], room: usize, seen: u8, tlv: Tlv, kind: usize, from: usize) -> bool
    requires stop_in_bounds { tlv.stop ≤ length s.now }
    requires from_le_stop { from ≤ tlv.stop }
    ensures { result ≡ true → PartClean s.now room seen tlv.tag tlv.start kind from tlv.stop }
{
    if tlv.tag % 128 == 0x0A {
        from == tlv::content_at(s, tlv)
            && anchor_clean(s, seen, from, tlv.stop)
            && clean(s, kind, from, room, from, tlv.stop, UNIT_LEVELS)
    } else {
        clean(s, kind, tlv.stop, 0, from, tlv.stop, UNIT_LEVELS)
    }
}

// No class from 3 on finds a fault in the page's parts.
fn row_clean(s: &[u8], from: usize, end: usize) -> bool
    requires end_in_bounds { end ≤ length s.now }
    requires from_le_end { from ≤ end }
    ensures { result ≡ true → RowClean s.now from end }
{
    if grammar::lacks(s, grammar::PAGE, from, end) {
        return false;
    }
    let own = tlv::count_tag(s, 0x08, from, end);
    if MODIFIERS < own {
        return false;
    }
    let room = MODIFIERS - own;
    let mut at = from;
    let mut last: u8 = 0;
    let mut units = UNITS;
    let mut modifiers = MODIFIERS;
    let mut slots: [u8; 1025] = [0; 1025];
    while at < end {
        let Some(tlv) = reader::head_at(s, at, end) else {
            return false;
        };
        let cell = grammar::cell_of(grammar::PAGE, tlv.tag);
        let fewer_units = left_after(units, 0x0A, tlv.tag);
        let fewer_modifiers = left_after(modifiers, 0x08, tlv.tag);
        let slot = anchor_slot(s, tlv);
        let seen = slots[slot];
        slots[slot] = 1;
        match clean_look(
            s,
            grammar::PAGE,
            end,
            0,
            units,
            modifiers,
            last,
            cell,
            at,
            tlv,
            UNIT_LEVELS,
        ) {
            Look::Fault => return false,
            Look::Over => {}
            Look::Into(kind, p) => {
                if !part_clean(s, room, seen, tlv, kind, p) {
                    return false;
                }
            }
        }
        units = fewer_units;
        modifiers = fewer_modifiers;
        last = cell;
        at = tlv.stop;
    }
    true
}

// No class finds a fault in a page whose TLV stops at a place: what class 2 finds inside the page class 3 finds too.
pub fn page_clean(s: &[u8], stop: usize) -> bool
    requires { stop ≤ length s.now }
    ensures { result ≡ true → PageClean s.now stop }
{
    if stop < s.len() || grammar::lacks(s, grammar::WHOLE, 0, stop) {
        return false;
    }
    let Some(tlv) = reader::head_at(s, 0, stop) else {
        return false;
    };
    if tlv.stop != stop {
        return false;
    }
    let cell = grammar::cell_of(grammar::WHOLE, tlv.tag);
    let look = clean_look(
        s,
        grammar::WHOLE,
        stop,
        0,
        0,
        0,
        0,
        cell,
        0,
        tlv,
        PAGE_LEVELS,
    );
    let Look::Into(kind, p) = look else {
        return false;
    };
    let row = page::page_row(s);
    kind == grammar::PAGE && p == row.from && stop == row.end && row_clean(s, p, stop)
}

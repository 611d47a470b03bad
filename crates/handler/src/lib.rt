// The terminal response handler (clauses 4.3 and 7.1.8): the modifiers in force, and their search.
#![tactic(auto)]

ghost use Rattle.std.specs.Prelude.{◌≡◌, ◌≤◌, length};
ghost use Rattle.rules.specs.Tlv.{head_at};
ghost use Rattle.rules.specs.Tlvs.{tlvs};
ghost use Rattle.rules.specs.Handler.{go_to, branch_by, action_by, action_in, modifier_at, default, handle};
ghost use Rattle.unit.specs.Nth.{nth_in};
ghost use Rattle.handler.specs.Search.{action_of, decides, list_of};

use rules::{Action, Span, Tlv};

// The branch to the anchor reference that a TLV is.
#[tactic(auto, using(crate::proofs::Actions::go_laws))]
fn go_to(h: Option<Tlv>) -> Action
    ensures { result ≡ go_to h }
{
    match h {
        Some(tlv) if tlv.tag == 0x0C => Action::Go(tlv.start, tlv.stop),
        _ => Action::Pass,
    }
}

// The branch to the reference that stands at a place, by itself or in a page reference (clause 7.9).
#[tactic(auto, using(crate::proofs::Actions::branch_laws, tlv::proofs::Bounds::next_laws))]
fn branch_at(s: &[u8], at: usize, end: usize) -> Action
    requires { end ≤ length s.now }
    ensures { result ≡ branch_by s.now (head_at s.now at end) }
{
    match tlv::head_at(s, at, end) {
        Some(tlv) if tlv.tag == 0x12 => go_to(tlv::head_at(s, tlv.start, tlv.stop)),
        Some(tlv) => go_to(Some(tlv)),
        None => Action::Pass,
    }
}

// The action of an ID, whose parts stand from a place on (clause 7.1.8.4.2).
#[tactic(auto, unfolding(rules::specs::Handler::action_by))]
fn action_by(s: &[u8], id: u8, at: usize, stop: usize) -> Action
    requires { stop ≤ length s.now }
    ensures { result ≡ action_by s.now id at stop }
{
    match id {
        0 => Action::Next,
        1 => Action::Quit,
        2 => Action::Back,
        3 => Action::Retry,
        0x04..=0x1F => Action::Pass,
        _ => branch_at(s, at, stop),
    }
}

// The first action from a place up to an end.
#[tactic(auto, using(crate::proofs::Actions::action_laws, tlv::proofs::Bounds::next_laws))]
fn action_in(s: &[u8], from: usize, end: usize) -> Action
    requires { end ≤ length s.now }
    ensures { result ≡ action_in s.now (tlvs 0 s.now from end) }
{
    let mut at = from;
    while let Some(tlv) = tlv::head_at(s, at, end) {
        if tlv.tag % 128 == 0x09 {
            let content = tlv::content_at(s, tlv);
            if content < tlv.stop {
                return action_by(s, s[content], content + 1, tlv.stop);
            }
            return Action::Pass;
        }
        at = tlv.stop;
    }
    Action::Pass
}

// What the modifier whose range stands at a place does for a general result (clause 7.1.8.2).
#[tactic(auto, using(crate::proofs::Actions::range_laws))]
fn modifier_at(s: &[u8], g: u8, at: usize, stop: usize) -> Action
    requires stop_in_bounds { stop ≤ length s.now }
    requires at_le_stop { at ≤ stop }
    ensures { result ≡ modifier_at s.now g at stop }
{
    if 2 <= stop - at && s[at] <= g && g <= s[at + 1] {
        action_in(s, at + 2, stop)
    } else {
        Action::Pass
    }
}

// What the n-th modifier, from 0, of those from a place up to an end does for a general result.
#[tactic(auto, using(crate::proofs::Actions::modifier_laws))]
fn action_of(s: &[u8], g: u8, n: usize, from: usize, end: usize) -> Action
    requires { end ≤ length s.now }
    ensures { result ≡ action_of s.now g (nth_in 0x08 n (tlvs 0 s.now from end)) }
{
    match unit::nth_tag(s, 0x08, n, from, end) {
        Some(tlv) => modifier_at(s, g, tlv::content_at(s, tlv), tlv.stop),
        None => Action::Pass,
    }
}

// The default configuration (clause 4.3.2).
#[tactic(auto, unfolding(rules::specs::Handler::default))]
fn by_default(g: u8) -> Action
    ensures { result ≡ default g }
{
    match g {
        0x00..=0x0F => Action::Next,
        0x11 => Action::Back,
        0x13 => Action::Retry,
        _ => Action::Quit,
    }
}

// An action leaves nothing to those behind it.
fn decides(a: Action) -> bool
    ensures { result ≡ decides a }
{
    match a {
        Action::Pass => false,
        Action::Next => true,
        Action::Quit => true,
        Action::Back => true,
        Action::Retry => true,
        Action::Go(_, _) => true,
    }
}

// Where the modifiers in force stand: those of the k-th unit, then the page's.
#[tactic(auto, unfolding(crate::specs::Search::list_of))]
fn list_of(s: &[u8], k: usize, list: usize) -> Span
    ensures { result ≡ list_of s.now k list }
{
    if list == 0 {
        return unit::unit_row(s, k);
    }
    page::page_row(s)
}

// What is done for a general result on the k-th unit. The unit's modifiers stand after the page's, and the last that matches decides.
#[tactic(auto, using(crate::proofs::Lists::search_laws))]
pub fn handle(s: &[u8], k: usize, g: u8) -> Action
    ensures { result ≡ handle s.now k g }
{
    let mut list: usize = 0;
    let action = 'lists: loop {
        if 2 <= list {
            break 'lists by_default(g);
        }
        let row = list_of(s, k, list);
        let mut i = tlv::count_tag(s, 0x08, row.from, row.end);
        while 0 < i {
            i -= 1;
            let found = action_of(s, g, i, row.from, row.end);
            if decides(found) {
                break 'lists found;
            }
        }
        list += 1;
    };
    action
}

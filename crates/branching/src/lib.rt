// Branch On Variable Value (clause 8.5), up to the reference that it leads to.
#![tactic(auto)]

ghost use Rattle.std.specs.Prelude.{◌≡◌, true, [], ◌≤◌, length};
ghost use Rattle.rules.specs.Bytes.{same};
ghost use Rattle.rules.specs.Tlv.{head_at};
ghost use Rattle.rules.specs.Tlvs.{tlvs};
ghost use Rattle.rules.specs.Pieces.{pieces};
ghost use Rattle.rules.specs.Page.{service};
ghost use Rattle.rules.specs.Value.{complaint, joined};
ghost use Rattle.rules.specs.Step.{case_value, secured_in, case_complaint, cases_complaint, follow, follow_in, is_undefined, choose};
ghost use Rattle.variable.specs.View.{viewed};
ghost use Rattle.branching.specs.Branch.{tried, branch_for, branch_choice};

use rules::{Choice, Complaint, Pair, Refusal, Span, Tlv};
use variable::View;

// The variables of an Inline Value that the page may not touch.
#[tactic(auto, using(crate::proofs::SecuredLaws::secured_laws, tlv::proofs::Bounds::shorter_laws))]
fn secured_in(page: &[u8], from: usize, end: usize) -> Complaint
    requires { end ≤ length page.now }
    ensures { result ≡ secured_in (service page.now) (pieces true page.now from end) }
{
    let mut at = from;
    let mut worst = Complaint::Nothing;
    while at < end {
        match tlv::pair_at(true, page, at, end) {
            Pair::Text(_, next) => at = next,
            Pair::Number(n, next) => {
                worst = variable::worse(worst, variable::unserved(page, n));
                at = next;
            }
            Pair::Broken => return worst,
        }
    }
    worst
}

// What is wrong with the value that a case starts with.
#[tactic(auto, using(crate::proofs::SecuredLaws::case_laws, tlv::proofs::Bounds::next_laws))]
fn case_complaint(page: &[u8], at: usize, end: usize) -> Complaint
    requires { end ≤ length page.now }
    ensures { result ≡ case_complaint page.now (head_at page.now at end) }
{
    let Some(tlv) = tlv::head_at(page, at, end) else {
        return Complaint::Nothing;
    };
    if tlv.tag == 0x0D {
        if tlv.start < tlv.stop {
            return variable::unserved(page, page[tlv.start]);
        }
        return Complaint::Misused;
    }
    secured_in(page, tlv::content_at(page, tlv), tlv.stop)
}

// What is wrong with the cases from a place up to an end, those behind a match too.
#[tactic(auto, using(crate::proofs::SecuredLaws::cases_laws, tlv::proofs::Bounds::next_laws))]
pub fn cases_complaint(page: &[u8], from: usize, end: usize) -> Complaint
    requires { end ≤ length page.now }
    ensures { result ≡ cases_complaint page.now (tlvs 0 page.now from end) }
{
    let mut at = from;
    let mut worst = Complaint::Nothing;
    while at < end {
        let Some(tlv) = tlv::head_at(page, at, end) else {
            return worst;
        };
        if tlv.tag == 0x11 {
            let found = case_complaint(page, tlv.start, tlv.stop);
            worst = variable::worse(worst, found);
        }
        at = tlv.stop;
    }
    worst
}

// The anchor reference that a TLV is.
#[tactic(auto, using(crate::proofs::ChooseLaws::follow_laws))]
fn follow(h: Option<Tlv>) -> Choice
    ensures { result ≡ follow h }
{
    match h {
        Some(tlv) => Choice::Follow(tlv.start, tlv.stop),
        None => Choice::Stay,
    }
}

// The anchor reference in the page reference at a place (clause 7.9).
#[tactic(auto, using(crate::proofs::ChooseLaws::follow_laws, tlv::proofs::Bounds::next_laws))]
fn follow_in(page: &[u8], at: usize, end: usize) -> Choice
    requires { end ≤ length page.now }
    ensures { result ≡ follow_in page.now (head_at page.now at end) }
{
    match tlv::head_at(page, at, end) {
        Some(tlv) => follow(tlv::head_at(page, tlv.start, tlv.stop)),
        None => Choice::Stay,
    }
}

#[tactic(auto, unfolding(rules::specs::Step::is_undefined))]
fn is_undefined(c: Complaint) -> bool
    ensures { result ≡ is_undefined c }
{
    matches!(c, Complaint::Undefined)
}

// The worst complaint about the variables of a case's value: of a list only the first number counts.
#[tactic(auto, using(crate::proofs::ChooseLaws::value_laws))]
fn value_complaint(view: View, tlv: Tlv) -> Complaint
    requires { tlv.stop ≤ length view.page.now }
    ensures { result ≡ complaint (viewed view.entry) [] (case_value view.entry.page.now tlv.tag tlv.start tlv.stop) }
{
    if tlv.tag == 0x0D {
        return variable::reading(view, slice::byte_at(view.page, tlv.start));
    }
    value::complaint_of(view, &view.page[0..0], tlv)
}

// A case's value equals bytes in length and bytes.
#[tactic(auto, using(crate::proofs::ChooseLaws::value_laws))]
fn value_is(view: View, tlv: Tlv, bytes: &[u8]) -> bool
    requires { tlv.stop ≤ length view.page.now }
    ensures { result ≡ same (joined (viewed view.entry) (case_value view.entry.page.now tlv.tag tlv.start tlv.stop)) bytes.now }
{
    if tlv.tag == 0x0D {
        let value = variable::value_of(view, slice::byte_at(view.page, tlv.start));
        return leaf::same_bytes(value, bytes);
    }
    let content = tlv::content_at(view.page, tlv);
    equal::is_value(view, false, content, tlv.stop, bytes)
}

// What the case from a place up to its end comes to; its page reference stands last.
#[tactic(auto, using(tlv::proofs::Bounds::next_laws, crate::proofs::ChooseLaws::tried_laws))]
fn try_case(view: View, bytes: &[u8], at: usize, stop: usize) -> Option<Choice>
    requires { stop ≤ length view.page.now }
    ensures { result ≡ tried (viewed view.entry) bytes.now stop (head_at view.entry.page.now at stop) }
{
    let Some(tlv) = tlv::head_at(view.page, at, stop) else {
        return None;
    };
    if is_undefined(value_complaint(view, tlv)) {
        return Some(Choice::Unknown);
    }
    if value_is(view, tlv, bytes) {
        return Some(follow_in(view.page, tlv.stop, stop));
    }
    None
}

// The first case that matches, or the page reference behind the cases, or no branch.
#[tactic(auto, using(crate::proofs::ChooseLaws::choose_laws, tlv::proofs::Bounds::next_laws))]
pub fn choose(view: View, bytes: &[u8], from: usize, end: usize) -> Choice
    requires { end ≤ length view.page.now }
    ensures { result ≡ choose (viewed view.entry) bytes.now (tlvs 0 view.entry.page.now from end) }
{
    let mut at = from;
    while at < end {
        let Some(tlv) = tlv::head_at(view.page, at, end) else {
            return Choice::Stay;
        };
        if tlv.tag == 0x12 {
            return follow(tlv::head_at(view.page, tlv.start, tlv.stop));
        }
        if let Some(choice) = try_case(view, bytes, tlv.start, tlv.stop) {
            return choice;
        }
        at = tlv.stop;
    }
    Choice::Stay
}

// A variable of a case that is undefined refuses the byte code.
#[tactic(auto, using(crate::proofs::ChooseLaws::branch_laws))]
fn branch_for(c: Choice) -> Result<Option<Span>, Refusal>
    ensures { result ≡ branch_for c }
{
    match c {
        Choice::Follow(start, stop) => Ok(Some(Span {
            from: start,
            end: stop,
        })),
        Choice::Stay => Ok(None),
        Choice::Unknown => Err(Refusal::Variable),
    }
}

// What the byte code whose value stands from a place up to another comes to.
#[tactic(auto, using(crate::proofs::ChooseLaws::choice_laws))]
pub fn branch_choice(view: View, start: usize, stop: usize) -> Result<Option<Span>, Refusal>
    requires { (start ≤ stop) × (stop ≤ length view.page.now) }
    ensures { result ≡ branch_choice (viewed view.entry) start stop }
{
    let n = slice::byte_at(view.page, start);
    let from = start + 1;
    let worst = variable::worse(
        variable::reading(view, n),
        cases_complaint(view.page, from, stop),
    );
    match variable::refusal_of(worst) {
        Some(why) => Err(why),
        None => branch_for(choose(view, variable::value_of(view, n), from, stop)),
    }
}

// Where a step leads, found on the lent parts before anything is done.
#![tactic(auto)]

ghost use Rattle.std.specs.Prelude.{◌≡◌, cond, [], ◌+◌, ◌≤◌, length, get_or, take};
ghost use Rattle.rules.specs.declared.Refusal.TheVariants.{Disallowed};
ghost use Rattle.rules.specs.Bytes.{part};
ghost use Rattle.rules.specs.Tlv.{head_at};
ghost use Rattle.rules.specs.Tlvs.{tlvs};
ghost use Rattle.rules.specs.Pieces.{named};
ghost use Rattle.rules.specs.Page.{service};
ghost use Rattle.rules.specs.Reference.{target};
ghost use Rattle.rules.specs.Card.{free};
ghost use Rattle.rules.specs.Store.{area, writing_in, worse};
ghost use Rattle.rules.specs.Value.{complaint};
ghost use Rattle.rules.specs.Command.{execute_of, type_at, allowed_by};
ghost use Rattle.rules.specs.Step.{setting_complaint};
ghost use Rattle.slots.specs.Slots.{slots};
ghost use Rattle.variable.specs.View.{view, viewed};
ghost use Rattle.branching.specs.Branch.{branch_choice};
ghost use Rattle.ways.specs.declared.Way.TheVariants.{Refuse, Store, Length, Send};
ghost use Rattle.ways.specs.Way.{way_to, branch_way, exit_way, unless_way, list_way, send_way, code_way, way_at};
ghost use Rattle.rules.specs.Built.{some_tlv};

use rules::{Action, Complaint, Refusal, Target, Tlv};
use variable::View;

// To a unit of the page; to a place of the unit; to the page's end by a byte code (true) or by its unit's end (false); to a refusal;
// to another page, by the reference from a place up to another; back;
// to a Set Variable whose pairs stand from a place up to another; to a Get Length of a number, with its list from a place up to another and its end;
// to a command, by its TLV.
#[derive(Clone, Copy)]
pub enum Way {
    Enter(usize),
    Place(usize),
    End(bool),
    Refuse(Refusal),
    Away(usize, usize),
    Back,
    Store(usize, usize),
    Length(u8, usize, usize, usize),
    Send(Tlv),
}

// By the reference that stands in the page from a place up to another.
#[tactic(auto, using(crate::proofs::WayLaws::to_laws))]
fn way_to(page: &[u8], start: usize, stop: usize) -> Way
    ensures { result ≡ way_to start stop (target page.now (part page.now start stop)) }
{
    match reference::target(page, slice::part_of(page, start, stop)) {
        Target::Unit(k) => Way::Enter(k),
        Target::Lacking => Way::Refuse(Refusal::Anchor),
        Target::Other => Way::Away(start, stop),
    }
}

// 8.5 Branch On Variable Value.
#[tactic(auto, using(crate::proofs::WayLaws::branch_laws))]
fn branch_way(view: View, start: usize, stop: usize) -> Way
    requires { (start ≤ stop) × (stop ≤ length view.page.now) }
    ensures { result ≡ branch_way view.entry.page.now stop (branch_choice (viewed view.entry) start stop) }
{
    match branching::branch_choice(view, start, stop) {
        Err(why) => Way::Refuse(why),
        Ok(None) => Way::Place(stop),
        Ok(Some(span)) => way_to(view.page, span.from, span.end),
    }
}

// 8.6 Exit.
#[tactic(auto, using(crate::proofs::WayLaws::exit_laws))]
fn exit_way(page: &[u8], unit: usize, tlv: Tlv) -> Way
    requires { tlv.stop ≤ length page.now }
    ensures { result ≡ exit_way page.now unit tlv.tag tlv.start tlv.stop }
{
    if tlv::attribute_of(page, tlv) % 2 == 1 {
        return Way::End(true);
    }
    match handler::handle(page, unit, 0x10) {
        Action::Pass | Action::Quit | Action::Retry => Way::End(true),
        Action::Next => Way::Place(tlv.stop),
        Action::Back => Way::Back,
        Action::Go(from, to) => way_to(page, from, to),
    }
}

// 16, 19 and 17 go before what else may be refused.
#[tactic(auto, using(crate::proofs::WayLaws::unless_laws))]
fn unless(wrong: Complaint, way: Way) -> Way
    ensures { result ≡ unless_way wrong way }
{
    match variable::refusal_of(wrong) {
        Some(why) => Way::Refuse(why),
        None => way,
    }
}

// 8.1 Set Variable.
#[tactic(auto, using(crate::proofs::WayLaws::unless_found))]
fn store_way(view: View, start: usize, stop: usize) -> Way
    requires { (start ≤ stop) × (stop ≤ length view.page.now) × (length view.page.now ≤ 4096) }
    ensures { result ≡ unless_way (setting_complaint (viewed view.entry) [] (tlvs 1 view.entry.page.now start stop)) (Store start stop) }
{
    unless(
        setting::setting_complaint(view, start, stop),
        Way::Store(start, stop),
    )
}

// 8.9 Get Length of a list from a place up to another.
#[tactic(auto, using(crate::proofs::WayLaws::unless_found))]
fn length_way(view: View, n: u8, from: usize, to: usize, stop: usize) -> Way
    requires { to ≤ length view.page.now }
    ensures { result ≡ unless_way (worse (writing_in (service view.entry.page.now) (area n)) (complaint (viewed view.entry) [] (named (part view.entry.page.now from to)))) (Length n from to stop) }
{
    unless(
        storing::length_complaint(view, n, from, to),
        Way::Length(n, from, to, stop),
    )
}

// 8.9 Get Length; no list is an empty one.
#[tactic(auto, using(crate::proofs::WayLaws::list_laws))]
fn list_way(view: View, start: usize, stop: usize) -> Way
    requires { (start ≤ stop) × (stop ≤ length view.page.now) × (length view.page.now ≤ 4096) }
    ensures { result ≡ list_way (viewed view.entry) (get_or view.entry.page.now start 0) stop (head_at view.entry.page.now (start + 1) stop) }
{
    let n = slice::byte_at(view.page, start);
    let Some(tlv) = tlv::head_at(view.page, start + 1, stop) else {
        return length_way(view, n, 0, 0, stop);
    };
    length_way(view, n, tlv.start, tlv.stop, stop)
}

// 22 for a type that variable '02' does not list.
#[tactic(auto, using(crate::proofs::WayLaws::allowed_laws))]
fn allowed_way(page: &[u8], env: &[u8; 16640], tlv: Tlv) -> Way
    requires { (tlv.start ≤ tlv.stop) × (tlv.stop ≤ length page.now) }
    ensures { result ≡ cond (allowed_by (get_or page.now (type_at (execute_of page.now tlv.tag tlv.start tlv.stop)) 0) (get_or (slots env.now) 2 free)) (Send tlv) (Refuse Disallowed) }
{
    if execute::allowed(page, env, tlv) {
        Way::Send(tlv)
    } else {
        Way::Refuse(Refusal::Disallowed)
    }
}

// 8.7 Execute USAT Command.
#[tactic(auto, using(crate::proofs::WayLaws::send_is))]
fn send_way(view: View, tlv: Tlv) -> Way
    requires { (tlv.start ≤ tlv.stop) × (tlv.stop ≤ length view.page.now) }
    ensures { result ≡ send_way (viewed view.entry) tlv.tag tlv.start tlv.stop }
{
    unless(
        execute::execute_complaint(view, tlv),
        allowed_way(view.page, view.environment, tlv),
    )
}

// Where the byte code of a tag leads, whose value stands from a place up to another.
#[tactic(auto, using(crate::proofs::WayLaws::code_laws))]
fn code_way(view: View, unit: usize, tlv: Tlv) -> Way
    requires { (tlv.start ≤ tlv.stop) × (tlv.stop ≤ length view.page.now) × (length view.page.now ≤ 4096) }
    ensures { result ≡ code_way (viewed view.entry) unit (some_tlv tlv.tag tlv.start tlv.stop) }
{
    if tlv.tag == 0x40 {
        return store_way(view, tlv.start, tlv.stop);
    }
    if tlv.tag % 128 == 0x43 {
        return Way::Back;
    }
    if tlv.tag == 0x44 {
        return branch_way(view, tlv.start, tlv.stop);
    }
    if tlv.tag % 128 == 0x45 {
        return exit_way(view.page, unit, tlv);
    }
    if tlv.tag % 128 == 0x46 {
        return send_way(view, tlv);
    }
    if tlv.tag == 0x48 {
        return list_way(view, tlv.start, tlv.stop);
    }
    Way::Refuse(Refusal::Syntax)
}

// Where the step at a place of a unit leads.
#[tactic(auto, using(crate::proofs::WayLaws::at_laws))]
pub fn way_at(
    page: &[u8; 4096],
    len: usize,
    env: &[u8; 16640],
    temp: &[u8; 16640],
    perm: &[u8; 17920],
    unit: usize,
    place: usize,
) -> Way
    ensures { result ≡ way_at (view (take len page.now) env.now temp.now perm.now) unit place }
{
    let view = View {
        page: state::page_of(page, len),
        environment: env,
        temporary: temp,
        permanent: perm,
    };
    match unit::code_at(view.page, unit, place) {
        Some(tlv) => code_way(view, unit, tlv),
        None => Way::End(false),
    }
}

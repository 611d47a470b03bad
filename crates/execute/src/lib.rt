// An Execute USAT Command, read (clause 8.7): its result variables, its type, and what is wrong with the numbers that it names.
#![tactic(auto)]

ghost use Rattle.std.specs.Prelude.{◌≡◌, true, cond, [], ◌+◌, ◌≤◌, length, get_or, eqb};
ghost use Rattle.rules.specs.declared.Complaint.TheVariants.{Nothing};
ghost use Rattle.rules.specs.Tlvs.{tlvs};
ghost use Rattle.rules.specs.Pieces.{pieces};
ghost use Rattle.rules.specs.Page.{content_at};
ghost use Rattle.rules.specs.Card.{free};
ghost use Rattle.rules.specs.Value.{complaint};
ghost use Rattle.rules.specs.Command.{execute_of, has_general, optimises, has_output, general_number, output_number, type_at, indicator_complaint, execute_complaint, allowed_by};
ghost use Rattle.slots.specs.Slots.{slots};
ghost use Rattle.variable.specs.View.{viewed};
ghost use Rattle.execute.specs.Told.{general_told, output_told, result_told};

use leaf::wide;
use rules::{Complaint, Tlv};
use variable::View;

// The number of the general result's variable is present.
#[tactic(auto, using(crate::proofs::ExecuteLaws::read_laws))]
pub fn has_general(page: &[u8], tlv: Tlv) -> bool
    requires { tlv.stop ≤ length page.now }
    ensures { result ≡ has_general (execute_of page.now tlv.tag tlv.start tlv.stop) }
{
    tlv::attribute_of(page, tlv) % 2 == 1
}

// Optimisation of the result is required.
#[tactic(auto, using(crate::proofs::ExecuteLaws::read_laws))]
pub fn optimises(page: &[u8], tlv: Tlv) -> bool
    requires { tlv.stop ≤ length page.now }
    ensures { result ≡ optimises (execute_of page.now tlv.tag tlv.start tlv.stop) }
{
    tlv::attribute_of(page, tlv) / 2 % 2 == 1
}

// The number of the output's variable is present.
#[tactic(auto, using(crate::proofs::ExecuteLaws::read_laws))]
pub fn has_output(page: &[u8], tlv: Tlv) -> bool
    requires { tlv.stop ≤ length page.now }
    ensures { result ≡ has_output (execute_of page.now tlv.tag tlv.start tlv.stop) }
{
    tlv::attribute_of(page, tlv) / 4 % 2 == 1
}

// Where the numbers of the result variables start.
#[tactic(auto, using(crate::proofs::ExecuteLaws::read_laws))]
fn content_in(page: &[u8], tlv: Tlv) -> usize
    requires { (tlv.start ≤ tlv.stop) × (tlv.stop ≤ length page.now) }
    ensures { (result ≡ content_at page.now tlv.tag tlv.start tlv.stop) × (result ≤ tlv.stop) }
{
    tlv::content_at(page, tlv)
}

// The number of the general result's variable.
#[tactic(auto, using(crate::proofs::ExecuteLaws::read_laws))]
pub fn general_number(page: &[u8], tlv: Tlv) -> u8
    requires { tlv.stop ≤ length page.now }
    ensures { result ≡ general_number page.now (execute_of page.now tlv.tag tlv.start tlv.stop) }
{
    slice::byte_at(page, tlv::content_at(page, tlv))
}

// The number of the output's variable stands after it.
#[tactic(auto, using(crate::proofs::ExecuteLaws::read_laws))]
pub fn output_number(page: &[u8], tlv: Tlv) -> u8
    requires { (tlv.start ≤ tlv.stop) × (tlv.stop ≤ length page.now) }
    ensures { result ≡ output_number page.now (execute_of page.now tlv.tag tlv.start tlv.stop) }
{
    let at = content_in(page, tlv);
    let a = wide(tlv::attribute_of(page, tlv));
    slice::byte_at(page, at + a % 2)
}

// The place of the command's type.
#[tactic(auto, using(crate::proofs::ExecuteLaws::read_laws))]
pub fn type_at(page: &[u8], tlv: Tlv) -> usize
    requires { (tlv.start ≤ tlv.stop) × (tlv.stop ≤ length page.now) }
    ensures { (result ≡ type_at (execute_of page.now tlv.tag tlv.start tlv.stop)) × (result ≤ tlv.stop + 2) }
{
    let at = content_in(page, tlv);
    let a = wide(tlv::attribute_of(page, tlv));
    at + (a % 2 + a / 4 % 2)
}

#[tactic(auto, using(crate::proofs::ToldLaws::result_laws))]
fn general_told(page: &[u8], tlv: Tlv) -> Complaint
    requires { (tlv.start ≤ tlv.stop) × (tlv.stop ≤ length page.now) }
    ensures { result ≡ general_told page.now (execute_of page.now tlv.tag tlv.start tlv.stop) }
{
    if has_general(page, tlv) {
        variable::writing(page, general_number(page, tlv))
    } else {
        Complaint::Nothing
    }
}

#[tactic(auto, using(crate::proofs::ToldLaws::result_laws))]
fn output_told(page: &[u8], tlv: Tlv) -> Complaint
    requires { (tlv.start ≤ tlv.stop) × (tlv.stop ≤ length page.now) }
    ensures { result ≡ output_told page.now (execute_of page.now tlv.tag tlv.start tlv.stop) }
{
    if has_output(page, tlv) {
        variable::writing(page, output_number(page, tlv))
    } else {
        Complaint::Nothing
    }
}

// What is wrong with the numbers of the result variables.
#[tactic(auto, using(crate::proofs::ToldLaws::result_laws))]
pub fn result_told(page: &[u8], tlv: Tlv) -> Complaint
    requires { (tlv.start ≤ tlv.stop) × (tlv.stop ≤ length page.now) }
    ensures { result ≡ result_told page.now (execute_of page.now tlv.tag tlv.start tlv.stop) }
{
    variable::worse(general_told(page, tlv), output_told(page, tlv))
}

// What is wrong with the variables of a Simple TLV: only an Indicator names any (clause 8.7.3).
#[tactic(auto, using(crate::proofs::ToldLaws::indicator_laws))]
fn indicator_told(view: View, tlv: Tlv) -> Complaint
    requires { (tlv.start ≤ tlv.stop) × (tlv.stop ≤ length view.page.now) }
    ensures { result ≡ cond (eqb tlv.tag 0) (complaint (viewed view.entry) [] (pieces true view.entry.page.now (tlv.start + 1) tlv.stop)) Nothing }
{
    if tlv.tag == 0 {
        value::complaint_from(view, &view.page[0..0], false, tlv.start + 1, tlv.stop)
    } else {
        Complaint::Nothing
    }
}

// What is wrong with the variables of the Simple TLVs.
#[tactic(auto, using(tlv::proofs::Bounds::next_laws, crate::proofs::ToldLaws::simple_laws))]
fn indicator_complaint(view: View, from: usize, end: usize) -> Complaint
    requires { end ≤ length view.page.now }
    ensures { result ≡ indicator_complaint (viewed view.entry) (tlvs 0 view.entry.page.now from end) }
{
    let mut at = from;
    let mut worst = Complaint::Nothing;
    while at < end {
        let Some(tlv) = tlv::head_at(view.page, at, end) else {
            return worst;
        };
        worst = variable::worse(worst, indicator_told(view, tlv));
        at = tlv.stop;
    }
    worst
}

// What is wrong with the numbers that the byte code names.
#[tactic(auto, using(crate::proofs::ToldLaws::execute_told))]
pub fn execute_complaint(view: View, tlv: Tlv) -> Complaint
    requires { (tlv.start ≤ tlv.stop) × (tlv.stop ≤ length view.page.now) }
    ensures { result ≡ execute_complaint (viewed view.entry) (execute_of view.entry.page.now tlv.tag tlv.start tlv.stop) }
{
    let at = type_at(view.page, tlv);
    variable::worse(
        result_told(view.page, tlv),
        indicator_complaint(view, at + 3, tlv.stop),
    )
}

// Variable '02' allows the command's type; undefined it allows all (House).
#[tactic(auto, using(crate::proofs::ExecuteLaws::allowed_laws))]
pub fn allowed(page: &[u8], env: &[u8; 16640], tlv: Tlv) -> bool
    requires { (tlv.start ≤ tlv.stop) × (tlv.stop ≤ length page.now) }
    ensures { result ≡ allowed_by (get_or page.now (type_at (execute_of page.now tlv.tag tlv.start tlv.stop)) 0) (get_or (slots env.now) 2 free) }
{
    let at = type_at(page, tlv);
    let own = slice::byte_at(page, at);
    !slots::is_held(env, 2) || leaf::among_bytes(slots::slot_value(env, 2), own)
}

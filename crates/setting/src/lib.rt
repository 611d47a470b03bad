// Set Variable (clause 8.1) and Get Length (clause 8.9) on lent arrays.
#![tactic(auto)]

ghost use Rattle.std.specs.Prelude.{◌≡◌, true, cond, is_ok, [], ◌≤◌, length};
ghost use Rattle.rules.specs.Bytes.{part};
ghost use Rattle.rules.specs.Tlvs.{tlvs};
ghost use Rattle.rules.specs.Pieces.{named};
ghost use Rattle.rules.specs.Page.{service};
ghost use Rattle.rules.specs.Store.{area, writing_in, worse, wrote, no_room, write};
ghost use Rattle.rules.specs.Value.{pieces_of, complaint, joined, type_for, shortest};
ghost use Rattle.rules.specs.Step.{setting_complaint, set_all};
ghost use Rattle.slots.specs.Slots.{tidy_slots};
ghost use Rattle.records.specs.Records.{tidy_records};
ghost use Rattle.variable.specs.View.{view, viewed};

use rules::{Complaint, Tlv};
use variable::View;
use writing::NoMemory;

// The worse of a complaint and what is wrong with a pair: its number is written, the variables of its value are read; the first numbers met are known.
#[tactic(auto, using(crate::proofs::ComplaintLaws::pair_complaint_is))]
fn pair_complaint<'a>(
    view: View<'a>,
    met: &'a [u8],
    count: usize,
    worst: Complaint,
    n: u8,
    tlv: Tlv,
) -> Complaint
    requires { tlv.stop ≤ length view.page.now }
    ensures { result ≡ worse worst (worse (writing_in (service view.entry.page.now) (area n)) (complaint (viewed view.entry) (part met.now 0 count) (pieces_of view.entry.page.now tlv.tag tlv.start tlv.stop))) }
{
    let own = variable::writing(view.page, n);
    let known = slice::part_of(met, 0, count);
    let read = value::complaint_of(view, known, tlv);
    let one = variable::worse(own, read);
    variable::worse(worst, one)
}

// What is wrong with the pairs of a Set Variable; the numbers of earlier pairs are put in an array, from its start.
fn pairs_complaint<'a>(view: View<'a>, numbers: [u8; 2048], start: usize, stop: usize) -> Complaint
    requires { (start ≤ stop) × (stop ≤ length view.page.now) × (length view.page.now ≤ 4096) }
    ensures { result ≡ setting_complaint (viewed view.entry) [] (tlvs 1 view.entry.page.now start stop) }
{
    let mut met = numbers;
    let mut count: usize = 0;
    let mut at = start;
    let mut worst = Complaint::Nothing;
    while 1 < stop - at {
        let Some(tlv) = tlv::head_at(view.page, at + 1, stop) else {
            return worst;
        };
        let n = view.page[at];
        worst = pair_complaint(view, &met[..], count, worst, n, tlv);
        met[count] = n;
        count += 1;
        at = tlv.stop;
    }
    worst
}

// What is wrong with the pairs of a Set Variable; the number of an earlier pair counts as defined.
pub fn setting_complaint<'a>(view: View<'a>, start: usize, stop: usize) -> Complaint
    requires { (start ≤ stop) × (stop ≤ length view.page.now) × (length view.page.now ≤ 4096) }
    ensures { result ≡ setting_complaint (viewed view.entry) [] (tlvs 1 view.entry.page.now start stop) }
{
    pairs_complaint(view, [0; 2048], start, stop)
}

// A variable gets the value of a pair.
fn set_one<'a>(
    page: &'a [u8],
    env: &'a [u8; 16640],
    temp: &mut [u8; 16640],
    perm: &mut [u8; 17920],
    n: u8,
    tlv: Tlv,
) -> Result<(), NoMemory>
    requires { (tlv.stop ≤ length page.now) × (length page.now ≤ 4096) × (length (service page.now) ≤ 16) }
    ensures to_value { write (view page.now env.now temp.old perm.old) n (type_for (view page.now env.now temp.old perm.old) tlv.tag tlv.start tlv.stop) (joined (view page.now env.now temp.old perm.old) (pieces_of page.now tlv.tag tlv.start tlv.stop)) ≡ cond (is_ok result) (wrote (view page.now env.now temp.new perm.new)) no_room }
    ensures temp_after { tidy_slots temp.old ≡ true → tidy_slots temp.new ≡ true }
    ensures perm_after { tidy_records perm.old ≡ true → tidy_records perm.new ≡ true }
{
    let mut out: [u8; 256] = [0; 256];
    let view = View {
        page,
        environment: env,
        temporary: temp,
        permanent: perm,
    };
    let size = value::value_into(view, tlv, &mut out);
    if 255 < size {
        return Err(NoMemory);
    }
    let valuetype = valuetype::type_for(view, tlv);
    let bytes = slice::part_of(&out[..], 0, size);
    writing::write_variable(page, temp, perm, n, valuetype, bytes)
}

// The pairs of a Set Variable in turn: a later one sees what an earlier one wrote. Where there is no memory for one, earlier ones stay written.
pub fn set_all<'a>(
    page: &'a [u8],
    env: &'a [u8; 16640],
    temp: &mut [u8; 16640],
    perm: &mut [u8; 17920],
    start: usize,
    stop: usize,
) -> Result<(), NoMemory>
    requires { (start ≤ stop) × (stop ≤ length page.now) × (length page.now ≤ 4096) × (length (service page.now) ≤ 16) }
    ensures perm_value { set_all (tlvs 1 page.now start stop) (view page.now env.now temp.old perm.old) ≡ cond (is_ok result) (wrote (view page.now env.now temp.new perm.new)) no_room }
    ensures temp_after { tidy_slots temp.old ≡ true → tidy_slots temp.new ≡ true }
    ensures perm_after { tidy_records perm.old ≡ true → tidy_records perm.new ≡ true }
{
    let mut at = start;
    while 1 < stop - at {
        let Some(tlv) = tlv::head_at(page, at + 1, stop) else {
            return Ok(());
        };
        set_one(page, env, temp, perm, page[at], tlv)?;
        at = tlv.stop;
    }
    Ok(())
}

// The length of the variables of a list together, in the shortest form, as a value of a variable.
#[tactic(auto, using(crate::proofs::SetLaws::one_laws))]
pub fn set_length<'a>(
    page: &'a [u8],
    env: &'a [u8; 16640],
    temp: &mut [u8; 16640],
    perm: &mut [u8; 17920],
    n: u8,
    from: usize,
    to: usize,
) -> Result<(), NoMemory>
    requires { (to ≤ length page.now) × (length page.now ≤ 4096) × (length (service page.now) ≤ 16) }
    ensures to_value { write (view page.now env.now temp.old perm.old) n 3 (shortest (length (joined (view page.now env.now temp.old perm.old) (named (part page.now from to))))) ≡ cond (is_ok result) (wrote (view page.now env.now temp.new perm.new)) no_room }
    ensures temp_after { tidy_slots temp.old ≡ true → tidy_slots temp.new ≡ true }
    ensures perm_after { tidy_records perm.old ≡ true → tidy_records perm.new ≡ true }
{
    let view = View {
        page,
        environment: env,
        temporary: temp,
        permanent: perm,
    };
    let size = value::length_from(view, true, from, to);
    let form = ber::shortest(size);
    let all = form.bytes;
    let bytes = slice::part_of(&all[..], 0, form.length);
    writing::write_variable(page, temp, perm, n, 3, bytes)
}

// What a byte code does to the parts of a state, each lent by itself: endings, the history, the areas, a command that goes out.
#![tactic(auto)]

ghost use Rattle.std.specs.Prelude.{◌≡◌, true, false, cond, is_ok, ◌∷◌, [], ℕ, ◌≤◌, ◌<◌, length, take, set, Ok};
ghost use Rattle.rules.specs.Bytes.{part};
ghost use Rattle.rules.specs.Loader.{judge};
ghost use Rattle.rules.specs.Tlvs.{tlvs};
ghost use Rattle.rules.specs.Pieces.{named};
ghost use Rattle.rules.specs.Page.{keep_list, password, bytes_of, service, entry_of};
ghost use Rattle.rules.specs.Store.{wrote, no_room, write};
ghost use Rattle.rules.specs.Value.{joined, shortest};
ghost use Rattle.rules.specs.Step.{set_all};
ghost use Rattle.variable.specs.View.{view};
ghost use Rattle.records.specs.Records.{tidy_records};
ghost use Rattle.rules.specs.Card.{held};
ghost use Rattle.rules.specs.Keep.{kept_by, guard_by};
ghost use Rattle.rules.specs.Reference.{target};
ghost use Rattle.rules.specs.Trail.{last, lowered};
ghost use Rattle.slots.specs.Slots.{slots, tidy_slots};
ghost use Rattle.pour.specs.Pour.{blank, poured};
ghost use Rattle.trail.specs.Trail.{history_of, tidy_trail};
ghost use Rattle.word.specs.Word.{laid_marked, word_in, guard_of, tidy_guard, tidy_wanted};
ghost use Rattle.leaving.specs.Leaving.{entry_for, left_by};
ghost use Rattle.parts.specs.declared.Turn.TheVariants.{Nowhere, Unit as UnitAt, Page};
ghost use Rattle.parts.specs.Parts.{laid, command_of, turn_to, turn_of};

use rules::{Outcome, Ran, Target, Tlv};
use state::State;
use variable::View;
use writing::NoMemory;

// The state after a run, with what ended it and the steps that it took.
#[derive(Clone, Copy)]
pub struct Course {
    pub state: State,
    pub ran: Ran,
}

// Where going back leads: nowhere, to a unit of the page, or to another page.
#[derive(Clone, Copy)]
pub enum Turn {
    Nowhere,
    Unit(usize),
    Page,
}

// A branch leaves a unit: '05' becomes '0000', and the unit is added to the history.
#[tactic(auto, using(crate::proofs::PartLaws::left_is))]
pub fn leave_unit(
    environment: &mut [u8; 16640],
    trail: &mut [u8; 1058],
    page: &[u8; 4096],
    len: usize,
    unit: usize,
)
    ensures trail_after { judge (take len page.now) ≡ Ok tt → history_of trail.new ≡ left_by (entry_for (take len page.now) unit) (history_of trail.old) }
    ensures trail_after_2 { tidy_trail trail.old ≡ true → tidy_trail trail.new ≡ true }
    ensures environment_after { slots environment.new ≡ set (slots environment.old) 5 (held 3 (0 ∷ 0 ∷ [])) }
    ensures environment_after_2 { tidy_slots environment.old ≡ true → tidy_slots environment.new ≡ true }
{
    state::note(environment, 0, 0);
    let mut entry = [0u8; 65];
    let n = leaving::entry_into(&mut entry, state::page_of(page, len), unit);
    leaving::leave(trail, &entry, n);
}

// '05' becomes '0000' where a byte code ended the page.
#[tactic(auto, using(crate::proofs::PartLaws::note_laws))]
pub fn note_end(environment: &mut [u8; 16640], done: bool)
    ensures environment_after { slots environment.new ≡ cond done (set (slots environment.old) 5 (held 3 (0 ∷ 0 ∷ []))) (slots environment.old) }
    ensures environment_after_2 { tidy_slots environment.old ≡ true → tidy_slots environment.new ≡ true }
{
    if done {
        state::note(environment, 0, 0);
    }
}

// The page ends: the keep rule, and a state at rest by the parts that are left.
pub fn end_page<'a>(
    environment: &'a [u8; 16640],
    temporary: &mut [u8; 16640],
    permanent: &'a [u8; 17920],
    trail: &'a [u8; 1058],
    guard: &mut [u8; 18],
    wanted: &'a [u8; 66],
    page: &'a [u8; 4096],
    len: usize,
    outcome: Outcome,
    count: usize,
) -> Course
    ensures value { result ≡ record { state = laid (blank 4096) 0 environment.now temporary.new permanent.now trail.now guard.new (blank 257) wanted.now 0 0; ran = record { outcome = outcome; count = count } } }
    ensures temporary_after { slots temporary.new ≡ kept_by (take len page.now) (keep_list (take len page.now)) (slots temporary.old) }
    ensures temporary_after_2 { tidy_slots temporary.old ≡ true → tidy_slots temporary.new ≡ true }
    ensures guard_after { length (bytes_of (take len page.now) (password (take len page.now))) ≤ 16 → guard_of guard.new ≡ guard_by (take len page.now) (password (take len page.now)) }
    ensures guard_after_2 { tidy_guard guard.old ≡ true → tidy_guard guard.new ≡ true }
{
    let lent = state::page_of(page, len);
    keep::keep_temporary(temporary, lent);
    keep::keep_guard(guard, lent);
    Course {
        state: State {
            page: [0; 4096],
            len: 0,
            environment: *environment,
            temporary: *temporary,
            permanent: *permanent,
            trail: *trail,
            guard: *guard,
            hand: [0; 257],
            wanted: *wanted,
            unit: 0,
            place: 0,
        },
        ran: Ran { outcome, count },
    }
}

// The command of an Execute USAT Command: its length, and, where that is at most 255, the command in hand and in the lent buffer.
pub fn send_command<'a>(
    page: &'a [u8; 4096],
    len: usize,
    env: &'a [u8; 16640],
    temp: &'a [u8; 16640],
    perm: &'a [u8; 17920],
    tlv: Tlv,
    hand: &mut [u8; 257],
    out: &mut [u8],
) -> usize
    requires { (tlv.start ≤ tlv.stop) × (tlv.stop ≤ length (take len page.now)) × (255 ≤ length out.old) }
    ensures value { result ≡ length (command_of (take len page.now) env.now temp.now perm.now tlv.tag tlv.start tlv.stop) }
    ensures hand_after { result ≤ 255 → (hand.new ≡ laid_marked 257 (command_of (take len page.now) env.now temp.now perm.now tlv.tag tlv.start tlv.stop)) × (out.new ≡ poured out.old 0 (command_of (take len page.now) env.now temp.now perm.now tlv.tag tlv.start tlv.stop)) }
    ensures hand_unchanged { 255 < result → (hand.new ≡ hand.old) × (out.new ≡ out.old) }
{
    let mut command: [u8; 256] = [0; 256];
    let view = View {
        page: state::page_of(page, len),
        environment: env,
        temporary: temp,
        permanent: perm,
    };
    let n = command::command_into(view, tlv, &mut command);
    if 255 < n {
        return n;
    }
    let text = slice::part_of(&command[..], 0, n);
    word::hold(hand, text);
    pour::pour(out, 0, text);
    n
}

// The reference wanted, from a place of the page up to another.
pub fn want_from(wanted: &mut [u8; 66], page: &[u8; 4096], len: usize, start: usize, stop: usize)
    ensures wanted_after { length (part (take len page.now) start stop) ≤ 65 → word_in wanted.new ≡ part (take len page.now) start stop }
    ensures wanted_after_2 { tidy_wanted wanted.old ≡ true → tidy_wanted wanted.new ≡ true }
{
    moving::want(
        wanted,
        slice::part_of(state::page_of(page, len), start, stop),
    );
}

// Back to a unit, or to a page whose reference is then wanted.
fn turn_to(wanted: &mut [u8; 66], page: &[u8; 4096], len: usize, entry: &[u8]) -> Turn
    ensures value { result ≡ turn_to (target (take len page.now) entry.now) }
    ensures wanted_after { result ≡ Page → length entry.now ≤ 65 → word_in wanted.new ≡ entry.now }
    ensures by_index { (k : ℕ) → result ≡ UnitAt k → wanted.new ≡ wanted.old }
    ensures wanted_after_2 { tidy_wanted wanted.old ≡ true → tidy_wanted wanted.new ≡ true }
{
    match reference::target(state::page_of(page, len), entry) {
        Target::Unit(k) => Turn::Unit(k),
        Target::Lacking => {
            moving::want(wanted, entry);
            Turn::Page
        }
        Target::Other => {
            moving::want(wanted, entry);
            Turn::Page
        }
    }
}

// 8.4 Go Back: the entry at the pointer, which moves down.
pub fn turn_back(
    trail: &mut [u8; 1058],
    wanted: &mut [u8; 66],
    page: &[u8; 4096],
    len: usize,
) -> Turn
    ensures value { result ≡ turn_of (take len page.now) (history_of trail.old) }
    ensures trail_unchanged { result ≡ Nowhere → (trail.new ≡ trail.old) × (wanted.new ≡ wanted.old) }
    ensures by_index { (k : ℕ) → result ≡ UnitAt k → (history_of trail.new ≡ lowered (history_of trail.old)) × (wanted.new ≡ wanted.old) }
    ensures trail_after { result ≡ Page → history_of trail.new ≡ lowered (history_of trail.old) }
    ensures wanted_after { result ≡ Page → length (last (history_of trail.old)) ≤ 65 → word_in wanted.new ≡ last (history_of trail.old) }
    ensures trail_after_2 { tidy_trail trail.old ≡ true → tidy_trail trail.new ≡ true }
    ensures wanted_after_2 { tidy_wanted wanted.old ≡ true → tidy_wanted wanted.new ≡ true }
{
    if trail::pointer_of(trail) == 0 {
        return Turn::Nowhere;
    }
    let before = *trail;
    let entry = trail::last_entry(&before);
    trail::lower(trail);
    turn_to(wanted, page, len, entry)
}

// The first byte code of a unit.
#[tactic(auto, using(crate::proofs::PartLaws::entry_lent))]
pub fn entry_at(page: &[u8; 4096], len: usize, k: usize) -> usize
    ensures { result ≡ entry_of (take len page.now) k }
{
    unit::entry_of(state::page_of(page, len), k)
}

// The pairs of a Set Variable, all or none.
#[tactic(auto, using(storing::proofs::StoreLaws::bound_laws, crate::proofs::PartLaws::set_lent))]
pub fn set_all<'a>(
    page: &'a [u8; 4096],
    len: usize,
    env: &'a [u8; 16640],
    temp: &mut [u8; 16640],
    perm: &mut [u8; 17920],
    start: usize,
    stop: usize,
) -> Result<(), NoMemory>
    requires { (start ≤ stop) × (stop ≤ length (take len page.now)) × (length (service (take len page.now)) ≤ 16) }
    ensures perm_value { set_all (tlvs 1 (take len page.now) start stop) (view (take len page.now) env.now temp.old perm.old) ≡ cond (is_ok result) (wrote (view (take len page.now) env.now temp.new perm.new)) no_room }
    ensures temp_unchanged { is_ok result ≡ false → (temp.new ≡ temp.old) × (perm.new ≡ perm.old) }
    ensures temp_after { tidy_slots temp.old ≡ true → tidy_slots temp.new ≡ true }
    ensures perm_after { tidy_records perm.old ≡ true → tidy_records perm.new ≡ true }
{
    whole::set_all(state::page_of(page, len), env, temp, perm, start, stop)
}

// The length of a list, stored or not.
#[tactic(auto, using(storing::proofs::StoreLaws::bound_laws, crate::proofs::PartLaws::length_lent))]
pub fn set_length<'a>(
    page: &'a [u8; 4096],
    len: usize,
    env: &'a [u8; 16640],
    temp: &mut [u8; 16640],
    perm: &mut [u8; 17920],
    n: u8,
    from: usize,
    to: usize,
) -> Result<(), NoMemory>
    requires { (to ≤ length (take len page.now)) × (length (service (take len page.now)) ≤ 16) }
    ensures to_value { write (view (take len page.now) env.now temp.old perm.old) n 3 (shortest (length (joined (view (take len page.now) env.now temp.old perm.old) (named (part (take len page.now) from to))))) ≡ cond (is_ok result) (wrote (view (take len page.now) env.now temp.new perm.new)) no_room }
    ensures temp_unchanged { is_ok result ≡ false → (temp.new ≡ temp.old) × (perm.new ≡ perm.old) }
    ensures temp_after { tidy_slots temp.old ≡ true → tidy_slots temp.new ≡ true }
    ensures perm_after { tidy_records perm.old ≡ true → tidy_records perm.new ≡ true }
{
    whole::set_length(state::page_of(page, len), env, temp, perm, n, from, to)
}

// A step of a page that runs, done in place on the lent parts of its state.
#![tactic(auto)]

ghost use Rattle.std.specs.Prelude.{◌≡◌, true, List, [], ◌∷◌, ℕ, ◌≤◌, length, take, set, Ok};
ghost use Rattle.rules.specs.declared.Outcome.TheVariants.{Refused};
ghost use Rattle.rules.specs.Numbers.{code};
ghost use Rattle.rules.specs.Loader.{judge};
ghost use Rattle.rules.specs.Card.{held};
ghost use Rattle.slots.specs.Slots.{slots, tidy_slots};
ghost use Rattle.parts.specs.Parts.{laid};
ghost use Rattle.stepping.specs.declared.Took.TheVariants.{On, Ends};
ghost use Rattle.stepping.specs.Took.{Ready, Leads};

use parts::Turn;
use rules::{Outcome, Refusal};
use ways::Way;
use writing::NoMemory;

// Where a step leads: on, to a unit and a place in it; to a command of a length that went out; to the page's end, for which the keep rule is still to be followed.
#[derive(Clone, Copy)]
pub enum Took {
    On(usize, usize),
    Sent(usize),
    Ends(Outcome),
}

// '05' becomes '0000', and the page goes on.
fn go_on(environment: &mut [u8; 16640], unit: usize, place: usize) -> Took
    ensures value { result ≡ On unit place }
    ensures environment_after { slots environment.new ≡ set (slots environment.old) 5 (held 3 (0 ∷ 0 ∷ [])) }
    ensures environment_after_2 { tidy_slots environment.old ≡ true → tidy_slots environment.new ≡ true }
{
    state::note(environment, 0, 0);
    Took::On(unit, place)
}

// The page ends by a refusal: '05' says which.
fn refuse(environment: &mut [u8; 16640], why: Refusal) -> Took
    ensures value { result ≡ Ends (Refused why) }
    ensures environment_after { slots environment.new ≡ set (slots environment.old) 5 (held 3 (code why)) }
    ensures environment_after_2 { tidy_slots environment.old ≡ true → tidy_slots environment.new ≡ true }
{
    moving::note_refusal(environment, why);
    Took::Ends(Outcome::Refused(why))
}

// One step. The guarding password is not touched, so what is promised holds for any.
pub fn take_step(
    page: &[u8; 4096],
    len: usize,
    environment: &mut [u8; 16640],
    temporary: &mut [u8; 16640],
    permanent: &mut [u8; 17920],
    trail: &mut [u8; 1058],
    hand: &mut [u8; 257],
    wanted: &mut [u8; 66],
    unit: usize,
    place: usize,
    out: &mut [u8],
) -> Took
    requires { (judge (take len page.now) ≡ Ok tt) × (255 ≤ length out.old) }
    ensures { (guard : List ℕ) → Ready (laid page.now len environment.old temporary.old permanent.old trail.old guard hand.old wanted.old unit place) → Leads result (laid page.now len environment.old temporary.old permanent.old trail.old guard hand.old wanted.old unit place) (laid page.now len environment.new temporary.new permanent.new trail.new guard hand.new wanted.new unit place) out.old out.new }
{
    match ways::way_at(page, len, environment, temporary, permanent, unit, place) {
        Way::Enter(k) => {
            parts::leave_unit(environment, trail, page, len, unit);
            Took::On(k, parts::entry_at(page, len, k))
        }
        Way::Place(p) => go_on(environment, unit, p),
        Way::End(done) => {
            parts::note_end(environment, done);
            Took::Ends(Outcome::Ended)
        }
        Way::Store(start, stop) => {
            match parts::set_all(page, len, environment, temporary, permanent, start, stop) {
                Ok(()) => go_on(environment, unit, stop),
                Err(NoMemory) => refuse(environment, Refusal::Memory),
            }
        }
        Way::Length(n, from, to, stop) => {
            match parts::set_length(page, len, environment, temporary, permanent, n, from, to) {
                Ok(()) => go_on(environment, unit, stop),
                Err(NoMemory) => refuse(environment, Refusal::Memory),
            }
        }
        Way::Send(tlv) => {
            let n = parts::send_command(
                page,
                len,
                environment,
                temporary,
                permanent,
                tlv,
                hand,
                out,
            );
            if n <= 255 {
                return Took::Sent(n);
            }
            refuse(environment, Refusal::Memory)
        }
        Way::Refuse(why) => refuse(environment, why),
        Way::Away(start, stop) => {
            parts::leave_unit(environment, trail, page, len, unit);
            parts::want_from(wanted, page, len, start, stop);
            Took::Ends(Outcome::Page)
        }
        Way::Back => {
            state::note(environment, 0, 0);
            match parts::turn_back(trail, wanted, page, len) {
                Turn::Unit(k) => Took::On(k, parts::entry_at(page, len, k)),
                Turn::Nowhere => Took::Ends(Outcome::Ended),
                Turn::Page => Took::Ends(Outcome::Page),
            }
        }
    }
}

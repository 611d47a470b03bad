// A run of steps, past the tests of 32, 35 and 33. The parts of the state are laid out once, and each step is done on them in place.
#![tactic(auto)]

ghost use Rattle.std.specs.Prelude.{◌≤◌, length};
ghost use Rattle.rules.specs.Calls.{steps};
ghost use Rattle.state.specs.State.{card};
ghost use Rattle.stepping.specs.Took.{Ready};
ghost use Rattle.running.specs.Course.{Counts};

use parts::Course;
use rules::{Outcome, Ran};
use state::State;
use stepping::Took;

// Up to n steps of a page that runs.
pub fn take_steps(state: State, most: usize, out: &mut [u8]) -> Course
    requires { Ready state × (255 ≤ length out.old) }
    ensures { Counts result out.old out.new (steps most 0 (card state)) }
{
    let page = state.page;
    let len = state.len;
    let mut environment = state.environment;
    let mut temporary = state.temporary;
    let mut permanent = state.permanent;
    let mut trail = state.trail;
    let mut guard = state.guard;
    let mut hand = state.hand;
    let mut wanted = state.wanted;
    let mut unit = state.unit;
    let mut place = state.place;
    let mut count: usize = 0;
    while count < most {
        count = count + 1;
        match stepping::take_step(
            &page,
            len,
            &mut environment,
            &mut temporary,
            &mut permanent,
            &mut trail,
            &mut hand,
            &mut wanted,
            unit,
            place,
            out,
        ) {
            Took::On(u, p) => {
                unit = u;
                place = p;
            }
            Took::Sent(n) => {
                return Course {
                    state: State {
                        page,
                        len,
                        environment,
                        temporary,
                        permanent,
                        trail,
                        guard,
                        hand,
                        wanted,
                        unit,
                        place,
                    },
                    ran: Ran {
                        outcome: Outcome::Command(n),
                        count,
                    },
                };
            }
            Took::Ends(outcome) => {
                return parts::end_page(
                    &environment,
                    &mut temporary,
                    &permanent,
                    &trail,
                    &mut guard,
                    &wanted,
                    &page,
                    len,
                    outcome,
                    count,
                );
            }
        }
    }
    Course {
        state: State {
            page,
            len,
            environment,
            temporary,
            permanent,
            trail,
            guard,
            hand,
            wanted,
            unit,
            place,
        },
        ran: Ran {
            outcome: Outcome::On,
            count,
        },
    }
}

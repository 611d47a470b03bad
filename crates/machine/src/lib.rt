// The machine: the host's calls on a card.
#![tactic(auto)]

ghost use Rattle.std.specs.Prelude.{◌≡◌, true, false, cond, take, eqb};
ghost use Rattle.rules.specs.declared.Outcome.TheVariants.{Refused};
ghost use Rattle.rules.specs.declared.Refusal.TheVariants.{State as NoCard};
ghost use Rattle.rules.specs.Page.{code_at};
ghost use Rattle.word.specs.Word.{is_marked};
ghost use Rattle.rules.specs.Card.{created};
ghost use Rattle.rules.specs.Calls.{set_environment, load, step, run_up_to, respond, end, read_variable, told, loaded, taken, ran, responded, shown, reference_after, tag_of, hidden};
ghost use Rattle.state.specs.State.{Is, card};
ghost use Rattle.machine.specs.Meets.{Meets};

use rules::{LoadError, Outcome, Ran, Refusal, Shown, Stepped};
use state::State;

// A card's state, handed from call to call.
#[derive(Clone, Copy)]
pub struct Machine {
    pub state: State,
}

// An environment write or an end: the machine after it, and the answer.
#[derive(Clone, Copy)]
pub struct Settled {
    pub machine: Machine,
    pub told: Result<(), Refusal>,
}

// A load.
#[derive(Clone, Copy)]
pub struct Begun {
    pub machine: Machine,
    pub loaded: Result<(), LoadError>,
}

// A step.
#[derive(Clone, Copy)]
pub struct Taken {
    pub machine: Machine,
    pub stepped: Stepped,
}

// A run of up to n steps.
#[derive(Clone, Copy)]
pub struct Gone {
    pub machine: Machine,
    pub ran: Ran,
}

// A response.
#[derive(Clone, Copy)]
pub struct Answered {
    pub machine: Machine,
    pub outcome: Outcome,
}

// No step was taken.
fn no_step(why: Refusal) -> Stepped
    ensures { result ≡ record { outcome = Refused why; unit = 0; tag = 0 } }
{
    Stepped {
        outcome: Outcome::Refused(why),
        unit: 0,
        tag: 0,
    }
}

// A page runs and awaits no response.
#[tactic(auto, using(crate::proofs::Parts::ready_free, crate::proofs::Parts::ready_marked, crate::proofs::Parts::ready_rests))]
fn is_ready(len: usize, hand: &[u8; 257]) -> bool
    ensures { result ≡ cond (eqb len 0) false (cond (is_marked hand.now) false true) }
{
    len != 0 && !word::is_marked(hand)
}

// A page runs and awaits a response.
#[tactic(auto, using(crate::proofs::Parts::ready_behind, crate::proofs::Parts::ready_rests))]
fn is_waiting(len: usize, hand: &[u8; 257]) -> bool
    ensures { result ≡ cond (eqb len 0) false (is_marked hand.now) }
{
    len != 0 && word::is_marked(hand)
}

// The tag of the byte code at a place of a unit, '00' at the unit's end.
#[tactic(auto, using(crate::proofs::CallLaws::tag_held, crate::proofs::CallLaws::tag_none))]
fn tag_at(page: &[u8; 4096], len: usize, unit: usize, place: usize) -> u8
    ensures { result ≡ tag_of (code_at (take len page.now) unit place) }
{
    match unit::code_at(state::page_of(page, len), unit, place) {
        Some(tlv) => tlv.tag,
        None => 0,
    }
}

// No step of a run was taken.
fn no_run(machine: Machine, why: Refusal) -> Gone
    ensures { result ≡ record { machine = machine; ran = record { outcome = Refused why; count = 0 } } }
{
    Gone {
        machine,
        ran: Ran {
            outcome: Outcome::Refused(why),
            count: 0,
        },
    }
}

// What a state that is no card shows.
#[tactic(auto, using(crate::proofs::RunLaws::none_shown))]
fn show_none() -> Shown
    ensures { result ≡ hidden NoCard }
{
    Shown {
        number: 35,
        valuetype: 0,
        length: 0,
        bytes: [0; 255],
    }
}

impl Machine {
    // A new card at rest.
    pub fn create() -> Machine
        ensures { Is result.state created }
    {
        Machine {
            state: state::create(),
        }
    }

    // The host sets an environment variable; what it sets has type binary (House).
    #[tactic(auto, using(crate::proofs::CallLaws::set_done, crate::proofs::CallLaws::set_five, crate::proofs::CallLaws::set_high, crate::proofs::CallLaws::set_long, crate::proofs::CallLaws::set_none, crate::proofs::CallLaws::set_runs))]
    pub fn set_environment(mut self, number: u8, value: &[u8]) -> Settled
        ensures { Meets (set_environment number value.now) self (told result.told) result.machine }
    {
        if !sound::is_sound(self.state) {
            return Settled {
                machine: self,
                told: Err(Refusal::State),
            };
        }
        if self.state.len != 0 {
            return Settled {
                machine: self,
                told: Err(Refusal::Call),
            };
        }
        if 0x3F < number {
            return Settled {
                machine: self,
                told: Err(Refusal::Security),
            };
        }
        if number == 5 {
            return Settled {
                machine: self,
                told: Err(Refusal::Security),
            };
        }
        if 255 < value.len() {
            return Settled {
                machine: self,
                told: Err(Refusal::Memory),
            };
        }
        slots::write_slot(&mut self.state.environment, leaf::wide(number), 3, value);
        Settled {
            machine: self,
            told: Ok(()),
        }
    }

    // A page is loaded, and runs where the loader accepts it.
    #[tactic(auto, using(crate::proofs::CallLaws::accepted_size, crate::proofs::CallLaws::load_faulty, crate::proofs::CallLaws::load_none, crate::proofs::CallLaws::load_runs, crate::proofs::CallLaws::load_started))]
    pub fn load(mut self, page: &[u8]) -> Begun
        ensures { Meets (load page.now) self (loaded result.loaded) result.machine }
    {
        if !sound::is_sound(self.state) {
            return Begun {
                machine: self,
                loaded: Err(LoadError::Unloaded(Refusal::State)),
            };
        }
        if self.state.len != 0 {
            return Begun {
                machine: self,
                loaded: Err(LoadError::Unloaded(Refusal::Call)),
            };
        }
        match loader::judge(page) {
            Ok(()) => {
                self.state = starting::start(self.state, page);
                Begun {
                    machine: self,
                    loaded: Ok(()),
                }
            }
            Err(rejection) => Begun {
                machine: self,
                loaded: Err(LoadError::Faulty(rejection)),
            },
        }
    }

    // One step.
    #[tactic(auto, using(crate::proofs::RunLaws::run_ready_at, crate::proofs::CallLaws::step_none, crate::proofs::RunLaws::step_run, crate::proofs::CallLaws::step_short, crate::proofs::CallLaws::step_unready))]
    pub fn step(mut self, out: &mut [u8]) -> Taken
        ensures { Meets (step out.old) self (taken result.stepped out.new (reference_after (card result.machine.state) result.stepped.outcome)) result.machine }
    {
        if out.len() < 255 {
            return Taken {
                machine: self,
                stepped: no_step(Refusal::Buffer),
            };
        }
        if !sound::is_sound(self.state) {
            return Taken {
                machine: self,
                stepped: no_step(Refusal::State),
            };
        }
        if !is_ready(self.state.len, &self.state.hand) {
            return Taken {
                machine: self,
                stepped: no_step(Refusal::Call),
            };
        }
        let unit = self.state.unit;
        let tag = tag_at(&self.state.page, self.state.len, unit, self.state.place);
        let course = running::take_steps(self.state, 1, out);
        let next = course.state;
        let ran = course.ran;
        let outcome = ran.outcome;
        self.state = next;
        Taken {
            machine: self,
            stepped: Stepped { outcome, unit, tag },
        }
    }

    // Up to n steps: the count is the steps taken, a refused one too.
    #[tactic(auto, using(crate::proofs::RunLaws::run_done_lem, crate::proofs::RunLaws::run_none, crate::proofs::RunLaws::run_ready_at, crate::proofs::RunLaws::run_short, crate::proofs::RunLaws::run_unready))]
    pub fn run(mut self, most: usize, out: &mut [u8]) -> Gone
        ensures { Meets (run_up_to most out.old) self (ran result.ran out.new (reference_after (card result.machine.state) result.ran.outcome)) result.machine }
    {
        if out.len() < 255 {
            return no_run(self, Refusal::Buffer);
        }
        if !sound::is_sound(self.state) {
            return no_run(self, Refusal::State);
        }
        if !is_ready(self.state.len, &self.state.hand) {
            return no_run(self, Refusal::Call);
        }
        let course = running::take_steps(self.state, most, out);
        let last = course.state;
        let ran = course.ran;
        self.state = last;
        Gone { machine: self, ran }
    }

    // A terminal response.
    #[tactic(auto, using(crate::proofs::CallLaws::respond_done_lem, crate::proofs::CallLaws::respond_malformed, crate::proofs::CallLaws::respond_none, crate::proofs::CallLaws::respond_short, crate::proofs::CallLaws::respond_unasked, crate::proofs::Parts::served_laws))]
    pub fn respond(mut self, response: &[u8], out: &mut [u8]) -> Answered
        ensures { Meets (respond response.now out.old) self (responded result.outcome out.new (reference_after (card result.machine.state) result.outcome)) result.machine }
    {
        if out.len() < 255 {
            return Answered {
                machine: self,
                outcome: Outcome::Refused(Refusal::Buffer),
            };
        }
        if !sound::is_sound(self.state) {
            return Answered {
                machine: self,
                outcome: Outcome::Refused(Refusal::State),
            };
        }
        if !is_waiting(self.state.len, &self.state.hand) {
            return Answered {
                machine: self,
                outcome: Outcome::Refused(Refusal::Call),
            };
        }
        let Some(reply) = response::reply_of(response) else {
            return Answered {
                machine: self,
                outcome: Outcome::Refused(Refusal::Response),
            };
        };
        let moved = answering::answer(self.state, reply.general, response, reply.after, out);
        let next = moved.state;
        let outcome = moved.outcome;
        self.state = next;
        Answered {
            machine: self,
            outcome,
        }
    }

    // The page ends: the keep rule, and no page runs.
    #[tactic(auto, using(crate::proofs::CallLaws::end_done, crate::proofs::CallLaws::end_none, crate::proofs::CallLaws::end_rests))]
    pub fn end(mut self) -> Settled
        ensures { Meets end self (told result.told) result.machine }
    {
        if !sound::is_sound(self.state) {
            return Settled {
                machine: self,
                told: Err(Refusal::State),
            };
        }
        if self.state.len == 0 {
            return Settled {
                machine: self,
                told: Err(Refusal::Call),
            };
        }
        self.state = state::rest(self.state);
        Settled {
            machine: self,
            told: Ok(()),
        }
    }

    // The host reads a variable: the Service ID is for a permanent one. Nothing changes.
    #[tactic(auto, using(crate::proofs::RunLaws::read_done_lem, crate::proofs::RunLaws::read_none))]
    pub fn read(self, number: u8, service: &[u8]) -> Shown
        ensures { Meets (read_variable number service.now) self (shown result) self }
    {
        if !sound::is_sound(self.state) {
            return show_none();
        }
        reading::read(self.state, number, service)
    }
}

// An accepted page starts on the state of a card (clause 6.1.3.3): at its first unit (House).
#![tactic(auto)]

ghost use Rattle.std.specs.Prelude.{◌≡◌, true, cond, ◌≤◌, length};
ghost use Rattle.pour.specs.Pour.{padded};
ghost use Rattle.rules.specs.Card.{Card};
ghost use Rattle.rules.specs.Keep.{cleared, started};
ghost use Rattle.slots.specs.Slots.{slots, tidy_slots};
ghost use Rattle.state.specs.State.{Is};

use state::State;

// Temporary variables stay where the page opens them; else nothing of them does.
#[tactic(auto, using(crate::proofs::StartLaws::admit_laws))]
fn admit(temporary: &mut [u8; 16640], opened: bool)
    ensures temporary_after { slots temporary.new ≡ cond opened (slots temporary.old) (cleared (slots temporary.old)) }
    ensures temporary_after_2 { tidy_slots temporary.old ≡ true → tidy_slots temporary.new ≡ true }
{
    if !opened {
        slots::clear(temporary);
    }
}

#[tactic(auto, using(crate::proofs::StartLaws::put_at))]
fn put_page(dst: &mut [u8; 4096], page: &[u8])
    requires { length page.now ≤ 4096 }
    ensures { dst.new ≡ padded 4096 page.now }
{
    pour::fill(dst, page);
}

// The page runs: what is protected is opened or deleted, no guard is left, and no page is wanted.
pub fn start(mut state: State, page: &[u8]) -> State
    requires { length page.now ≤ 4096 }
    ensures { (c : Card) → Is state c → Is result (started page.now c) }
{
    let opened = keep::opens(&state.guard, page);
    admit(&mut state.temporary, opened);
    word::unlock(&mut state.guard);
    word::let_go(&mut state.hand);
    word::want_none(&mut state.wanted);
    put_page(&mut state.page, page);
    state.len = page.len();
    state.unit = 0;
    state.place = unit::entry_of(page, 0);
    state
}

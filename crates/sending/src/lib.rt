// A command that goes out: in hand, and its bytes in the lent buffer (8.7).
#![tactic(auto)]

ghost use Rattle.std.specs.Prelude.{◌≤◌, length};
ghost use Rattle.rules.specs.Card.{Card};
ghost use Rattle.rules.specs.Command.{command};
ghost use Rattle.rules.specs.Step.{moved, send};
ghost use Rattle.state.specs.State.{Is};
ghost use Rattle.sending.specs.Sent.{Sends};

use moving::Moved;
use rules::Outcome;
use state::State;

// A command goes out: it is in hand, and the lent buffer holds its bytes.
pub fn send_out(mut state: State, command: &[u8], out: &mut [u8]) -> Moved
    requires { (length command.now ≤ 255) × (255 ≤ length out.old) }
    ensures { (c : Card) → Is state c → Sends result out.old out.new (moved c (send command.now)) }
{
    word::hold(&mut state.hand, command);
    pour::pour(out, 0, command);
    Moved {
        state,
        outcome: Outcome::Command(command.len()),
    }
}

// The state of a card in a lent buffer of bytes: its fields in turn, a number as two bytes with the high byte first.
//
//     0      page         4096
//     4096   len             2
//     4098   environment 16640
//     20738  temporary   16640
//     37378  permanent   17920
//     55298  trail        1058
//     56356  guard          18
//     56374  hand          257
//     56631  wanted         66
//     56697  unit            2
//     56699  place           2
#![tactic(auto)]

ghost use Rattle.std.specs.Prelude.{◌≡◌, ◌+◌, ◌<◌, ◌≤◌, length};
ghost use Rattle.rules.specs.Bytes.{part, hex};
ghost use Rattle.pour.specs.Pour.{poured};
ghost use Rattle.buffer.specs.Buffer.{size, pair_at, decoded, encoded};

use state::State;

// The length of the buffer.
pub const SIZE: usize = 56701;

fn pair_at(s: &[u8], at: usize) -> usize
    requires { at + 1 < length s.now }
    ensures { result ≡ pair_at s.now at }
{
    leaf::pair(s[at], s[at + 1])
}

// Every byte becomes that of s, from a place on.
#[tactic(auto, unfolding(rules::specs::Bytes::part))]
fn fetch(dst: &mut [u8], s: &[u8], at: usize)
    requires { at + length dst.old ≤ length s.now }
    ensures { dst.new ≡ part s.now at (at + length dst.old) }
{
    let end = at + dst.len();
    pour::copy(dst, &s[at..end]);
}

// The state that a buffer holds.
pub fn decode(s: &[u8]) -> State
    requires { length s.now ≡ size }
    ensures { result ≡ decoded s.now }
{
    let mut page = [0u8; 4096];
    fetch(&mut page, s, 0);
    let len = pair_at(s, 4096);
    let mut environment = [0u8; 16640];
    fetch(&mut environment, s, 4098);
    let mut temporary = [0u8; 16640];
    fetch(&mut temporary, s, 20738);
    let mut permanent = [0u8; 17920];
    fetch(&mut permanent, s, 37378);
    let mut trail = [0u8; 1058];
    fetch(&mut trail, s, 55298);
    let mut guard = [0u8; 18];
    fetch(&mut guard, s, 56356);
    let mut hand = [0u8; 257];
    fetch(&mut hand, s, 56374);
    let mut wanted = [0u8; 66];
    fetch(&mut wanted, s, 56631);
    let unit = pair_at(s, 56697);
    let place = pair_at(s, 56699);
    State {
        page,
        len,
        environment,
        temporary,
        permanent,
        trail,
        guard,
        hand,
        wanted,
        unit,
        place,
    }
}

#[tactic(auto, unfolding(rules::specs::Bytes::hex, rules::specs::Bytes::hex_to))]
fn put_pair(s: &mut [u8], at: usize, number: usize)
    requires { at + 2 ≤ length s.old }
    ensures { s.new ≡ poured s.old at (hex 2 number) }
{
    let high = (number / 256 % 256) as u8;
    let low = (number % 256) as u8;
    let bytes = [high, low];
    pour::pour(s, at, &bytes);
}

// The buffer comes to hold the state.
pub fn encode(state: State, s: &mut [u8])
    requires { length s.old ≡ size }
    ensures { s.new ≡ encoded state }
{
    pour::pour(s, 0, &state.page);
    put_pair(s, 4096, state.len);
    pour::pour(s, 4098, &state.environment);
    pour::pour(s, 20738, &state.temporary);
    pour::pour(s, 37378, &state.permanent);
    pour::pour(s, 55298, &state.trail);
    pour::pour(s, 56356, &state.guard);
    pour::pour(s, 56374, &state.hand);
    pour::pour(s, 56631, &state.wanted);
    put_pair(s, 56697, state.unit);
    put_pair(s, 56699, state.place);
}

// Bytes of a slice at any places: past its end there are none.
#![tactic(auto)]

ghost use Rattle.std.specs.Prelude.{◌≡◌, get_or};
ghost use Rattle.rules.specs.Bytes.{part};

// The byte at a place, 0 past the end.
pub fn byte_at(s: &[u8], at: usize) -> u8
    ensures { result ≡ get_or s.now at 0 }
{
    if at < s.len() { s[at] } else { 0 }
}

// The bytes from a place up to another.
#[tactic(auto, unfolding(rules::specs::Bytes::part))]
pub fn part_of(s: &[u8], from: usize, to: usize) -> &[u8]
    ensures { result.now ≡ part s.now from to }
{
    let end = to.min(s.len());
    if from < end { &s[from..end] } else { &s[0..0] }
}

// The pieces that a value is put together from (clauses 6.3 and 7.4): bytes as they stand, and variables.
#![tactic(auto)]

ghost use Rattle.std.specs.Prelude.{◌≡◌, ◌≤◌, length};
ghost use Rattle.piece.specs.Piece.{piece_at, contents_at};

use rules::{Pair, Tlv};

// The piece at a place, before an end: of a list the next number, else the next pair.
#[tactic(auto, using(crate::proofs::PieceLaws::piece_laws))]
pub fn piece_at(list: bool, s: &[u8], at: usize, end: usize) -> Pair
    requires { end ≤ length s.now }
    ensures { result ≡ piece_at list s.now at end }
{
    if end <= at {
        return Pair::Broken;
    }
    if list {
        return Pair::Number(s[at], at + 1);
    }
    tlv::pair_at(true, s, at, end)
}

// Where the pieces of a value start.
#[tactic(auto, using(crate::proofs::PieceLaws::piece_laws))]
pub fn contents_at(s: &[u8], tlv: Tlv) -> usize
    requires { tlv.stop ≤ length s.now }
    ensures { result ≡ contents_at s.now tlv.tag tlv.start tlv.stop }
{
    if tlv.tag == 0x0D {
        tlv.start
    } else {
        tlv::content_at(s, tlv)
    }
}

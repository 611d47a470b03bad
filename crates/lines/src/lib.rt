// What the programs read and write as text: words, hex in either case, decimal numbers, and bytes as hex.
#![tactic(auto)]

ghost use Rattle.std.specs.Prelude.{◌≡◌, ◌*◌, ◌≤◌, ◌<◌, ◌/◌, length, IfSome, position, ◌==◌, is_some};
ghost use Rattle.std.specs.List.{list_all};
ghost use Rattle.lines.specs.Counts.{IsPrefixLen};
ghost use Rattle.lines.specs.Hex.{digit_of, is_hex, is_bytes, byte_of, unhexed, number_of, hexed};
ghost use Rattle.lines.specs.Hex.{glyph as Hex·glyph};
ghost use Rattle.lines.specs.Words.{place_of, count_of};

use std::io;

// The place of the first b.
fn place(bytes: &[u8], b: u8) -> Option<usize>
    ensures { result ≡ position (λ x. x == b) bytes.now }
{
    bytes.iter().position(|x| *x == b)
}

// The place of the first b from a place on.
pub fn find(line: &[u8], from: usize, b: u8) -> Option<usize>
    requires { from ≤ length line.now }
    ensures value { result ≡ place_of b from line.now }
    ensures bounds { IfSome result (λ at. (from ≤ at) × (at < length line.now)) }
{
    place(&line[from..], b).map(|n| from + n)
}

// The value of a hex digit.
fn digit(b: u8) -> Option<u8>
    ensures value { result ≡ digit_of b }
    ensures upper_bound { IfSome result (λ d. d < 16) }
{
    match b {
        b'0'..=b'9' => Some(b - b'0'),
        b'A'..=b'F' => Some(b - b'A' + 10),
        b'a'..=b'f' => Some(b - b'a' + 10),
        _ => None,
    }
}

// Every byte is a hex digit.
fn all_digits(word: &[u8]) -> bool
    ensures { result ≡ list_all (λ b. is_some (digit_of b)) word.now }
{
    word.iter().all(|b| digit(*b).is_some())
}

// A word is pairs of hex digits.
fn is_hex(word: &[u8]) -> bool
    ensures { result ≡ is_hex word.now }
{
    word.len() % 2 == 0 && all_digits(word)
}

// A word is bytes: pairs of hex digits, or '-' for none.
pub fn is_bytes(word: &[u8]) -> bool
    ensures { result ≡ is_bytes word.now }
{
    match word {
        [] => false,
        [b] => *b == b'-',
        _ => is_hex(word),
    }
}

// The byte that two digits say; what is no digit counts as 0.
fn byte(high: u8, low: u8) -> u8
    ensures { result ≡ byte_of high low }
{
    digit(high).unwrap_or(0) * 16 + digit(low).unwrap_or(0)
}

// The bytes of a word's pairs of digits, to the start of `out`, and their count.
pub fn unhex(word: &[u8], out: &mut [u8]) -> usize
    requires { length word.now / 2 ≤ length out.old }
    ensures value { result ≡ length word.now / 2 }
    ensures out_after { out.new ≡ unhexed word.now out.old }
    ensures prefix_len { IsPrefixLen result out.new }
{
    for (i, pair) in word.chunks_exact(2).enumerate() {
        out[i] = byte(pair[0], pair[1]);
    }
    word.len() / 2
}

// The number that a word of two hex digits says.
pub fn number_of(word: &[u8]) -> Option<u8>
    ensures { result ≡ number_of word.now }
{
    match word {
        [high, low] => Some(digit(*high)? * 16 + digit(*low)?),
        _ => None,
    }
}

// The number that a word of decimal digits says, at most 4,294,967,295.
pub fn count_of(word: &[u8]) -> Option<usize>
    ensures { result ≡ count_of word.now }
{
    if word.is_empty() {
        return None;
    }
    let mut n: u32 = 0;
    for b in word {
        let digit = char::from(*b).to_digit(10)?;
        n = n.checked_mul(10)?.checked_add(digit)?;
    }
    Some(n as usize)
}

// The character of a number's last hex digit, in lower case.
fn glyph(n: u8) -> u8
    ensures { result ≡ Hex·glyph n }
{
    match n % 16 {
        d @ 0..=9 => b'0' + d,
        d => b'a' + (d - 10),
    }
}

// The digits of bytes, two for each, to the start of `out`, and their count.
#[tactic(auto, using(crate::proofs::HexLaws::hex_laws))]
pub fn hex(bytes: &[u8], out: &mut [u8]) -> usize
    requires { 2 * length bytes.now ≤ length out.old }
    ensures value { result ≡ 2 * length bytes.now }
    ensures out_after { out.new ≡ hexed bytes.now out.old }
    ensures prefix_len { IsPrefixLen result out.new }
{
    for (i, b) in bytes.iter().enumerate() {
        out[2 * i] = glyph(*b / 16);
        out[2 * i + 1] = glyph(*b);
    }
    2 * bytes.len()
}

// Text, on standard output.
pub fn say(rt: &impl Print, text: &[u8]) -> io::Result<()> {
    rt.write_all(text)
}

// A number in decimal, after a blank.
pub fn say_number(rt: &impl Print, n: u64) -> io::Result<()> {
    print!(rt; " {n}")
}

// Bytes read as numbers and compared.
#![tactic(auto)]

ghost use Rattle.std.specs.Prelude.{◌≡◌, ◌+◌, ◌*◌, ◌<◌};
ghost use Rattle.rules.specs.Bytes.{same, among};

// A byte as a number.
pub fn wide(b: u8) -> usize
    ensures { (result ≡ b) × (result < 256) }
{
    b as usize
}

// Two bytes as a number, the high byte first.
pub fn pair(high: u8, low: u8) -> usize
    ensures { result ≡ high * 256 + low }
{
    (high as usize) * 256 + (low as usize)
}

// Two byte strings are equal in length and bytes.
pub fn same_bytes(a: &[u8], b: &[u8]) -> bool
    ensures { result ≡ same a.now b.now }
{
    if a.len() != b.len() {
        return false;
    }
    for i in 0..a.len() {
        if a[i] != b[i] {
            return false;
        }
    }
    true
}

// A number stands in a list of numbers.
pub fn among_bytes(list: &[u8], n: u8) -> bool
    ensures { result ≡ among list.now n }
{
    for i in 0..list.len() {
        if n == list[i] {
            return true;
        }
    }
    false
}

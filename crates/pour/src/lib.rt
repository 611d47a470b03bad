// Bytes copied into what is lent: a copy at any length is a part of a slice lent to it.
#![tactic(auto)]

ghost use Rattle.std.specs.Prelude.{◌≡◌, ◌+◌, ◌≤◌, length};
ghost use Rattle.pour.specs.Pour.{blank, poured, padded, slid, zeros};

// Every byte becomes that of src.
pub fn copy(dst: &mut [u8], src: &[u8])
    requires { length dst.old ≡ length src.now }
    ensures { dst.new ≡ src.now }
{
    dst.copy_from_slice(src);
}

// Every byte becomes zero.
pub fn wipe(dst: &mut [u8])
    ensures { dst.new ≡ blank (length dst.old) }
{
    dst.fill(0);
}

// The bytes of src, and zeros after them.
#[tactic(auto, unfolding(crate::specs::Pour::padded))]
pub fn fill(dst: &mut [u8], src: &[u8])
    requires { length src.now ≤ length dst.old }
    ensures { dst.new ≡ padded (length dst.old) src.now }
{
    let n = src.len();
    copy(&mut dst[0..n], src);
    wipe(&mut dst[n..]);
}

// The bytes of src from a place on; the others stay.
#[tactic(auto, unfolding(crate::specs::Pour::poured))]
pub fn pour(dst: &mut [u8], at: usize, src: &[u8])
    requires { at + length src.now ≤ length dst.old }
    ensures { dst.new ≡ poured dst.old at src.now }
{
    let end = at + src.len();
    copy(&mut dst[at..end], src);
}

// Each byte becomes the one that lies so many places further on; the last ones stay.
#[tactic(auto, unfolding(crate::specs::Pour::slid))]
pub fn slide(dst: &mut [u8], by: usize)
    requires { by ≤ length dst.old }
    ensures { dst.new ≡ slid by dst.old }
{
    dst.copy_within(by.., 0);
}

// Every byte is zero.
pub fn all_zero(s: &[u8]) -> bool
    ensures { result ≡ zeros s.now }
{
    s.iter().all(|b| *b == 0)
}

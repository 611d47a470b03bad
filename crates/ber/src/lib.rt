// Lengths in the shortest BER form.
#![tactic(auto)]

ghost use Rattle.std.specs.Prelude.{◌≡◌};
ghost use Rattle.ber.specs.Form.{form_of};

// The bytes of a length, zero past them, and how many they are.
#[derive(Clone, Copy)]
pub struct Form {
    pub bytes: [u8; 4],
    pub length: usize,
}

// A length in the shortest form.
#[tactic(auto, unfolding(crate::specs::Form::form_of, rules::specs::Value::shortest, pour::specs::Pour::padded))]
pub fn shortest(n: usize) -> Form
    ensures { result ≡ form_of n }
{
    if n < 128 {
        Form {
            bytes: [n as u8, 0, 0, 0],
            length: 1,
        }
    } else if n < 256 {
        Form {
            bytes: [0x81, n as u8, 0, 0],
            length: 2,
        }
    } else if n < 65536 {
        Form {
            bytes: [0x82, (n / 256) as u8, (n % 256) as u8, 0],
            length: 3,
        }
    } else {
        Form {
            bytes: [
                0x83,
                (n / 65536 % 256) as u8,
                (n / 256 % 256) as u8,
                (n % 256) as u8,
            ],
            length: 4,
        }
    }
}

// A field: blanks, then a number without leading zeros.
ghost use Rattle.std.specs.Prelude.{◌≡◌, ◌≤◌, length};
ghost use Rattle.columns.specs.Fields.{field_width, digits as digits_of, field as field_of};
ghost use Rattle.columns.specs.Inner.Writing.{value_as};

// The columns of a field, and the largest number that they show.
pub const WIDTH: usize = 4;

pub const LARGEST: usize = 9999;

// Digits to the end.
// No `parse`: it takes a sign, and the definition goes digit by digit.
#[tactic(auto, using(crate::proofs::FieldLaws::digit_cases), unfolding(crate::specs::Inner::Writing::value_as))]
fn digits(part: &[u8]) -> Option<u64>
    requires { length part.now ≤ field_width }
    ensures { value_as result ≡ digits_of 0 part.now }
{
    let mut value = 0;
    for digit in part {
        if !digit.is_ascii_digit() {
            return None;
        }
        value = 10 * value + u64::from(*digit - b'0');
    }
    Some(value)
}

// A field, or a part of one behind blanks.
#[tactic(auto, using(crate::proofs::FieldLaws::field_cases), unfolding(crate::specs::Inner::Writing::value_as))]
pub fn field(part: &[u8]) -> Option<u64>
    requires { length part.now ≤ field_width }
    ensures { value_as result ≡ field_of part.now }
{
    match part {
        [] => None,
        [b' ', rest @ ..] => field(rest),
        [b'0'] => Some(0),
        [b'0', ..] => None,
        _ => digits(part),
    }
}

//! Numbers in decimal digits.
ghost use Rattle.std.specs.Prelude.{◌≡◌};
ghost use Rattle.chat_model.specs.Number.{number_of};

/// How many digits a number has at most, so that it fits its type.
const MOST_DIGITS: usize = 19;

/// The number that one to nineteen digits write.
#[tactic(auto, unfolding(crate::specs::Number::number_of))]
pub fn number_of(digits: &[u8]) -> Option<u64>
    ensures { result ≡ number_of digits.now }
{
    if digits.is_empty() || digits.len() > MOST_DIGITS {
        return None;
    }
    let mut value = 0;
    for digit in digits {
        if !digit.is_ascii_digit() {
            return None;
        }
        value = 10 * value + u64::from(*digit - b'0');
    }
    Some(value)
}

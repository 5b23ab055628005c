ghost use Rattle.std.specs.Prelude.{◌≡◌};
ghost use Rattle.flow_types.specs.Decimal.{number_up_to};

/// The number that decimal digits write, where there is a digit, nothing else, and the number is at
/// most `most`. Leading zeros are allowed.
#[tactic(auto, using(crate::proofs::DecimalLemmas::number_found, crate::proofs::DecimalLemmas::number_no_digit, crate::proofs::DecimalLemmas::number_too_large, crate::proofs::DecimalLemmas::value_more, crate::proofs::DecimalLemmas::digits_more))]
pub fn number_up_to(digits: &[u8], most: u64) -> Option<u64>
    ensures { result ≡ number_up_to most digits.now }
{
    if digits.is_empty() {
        return None;
    }
    let mut number: u64 = 0;
    for i in 0..digits.len() {
        let byte = digits[i];
        if byte < b'0' || byte > b'9' {
            return None;
        }
        number = number.checked_mul(10)?.checked_add(u64::from(byte - b'0'))?;
        if number > most {
            return None;
        }
    }
    Some(number)
}

//! Numbers in the values of options.

ghost use Rattle.std.specs.Prelude.{◌≡◌, ◌≤◌, ◌&&◌, nat_le, IfSome};
ghost use Rattle.std.specs.List.{list_all};
ghost use Rattle.std.specs.Char.{is_digit};
ghost use Rattle.iop_options.specs.Numbers.{is_numeral, number_of};

/// Tells whether each byte is a digit of a base.
fn has_digits(bytes: &[u8], base: u32) -> bool
    requires low { 2 ≤ base }
    requires high { base ≤ 36 }
    ensures { result ≡ list_all (λ byte. is_digit byte base) bytes.now }
{
    bytes.iter().all(|byte| char::from(*byte).is_digit(base))
}

/// Tells whether a text is digits of a base, one at least.
fn is_numeral(text: &str, base: u32) -> bool
    requires low { 2 ≤ base }
    requires high { base ≤ 36 }
    ensures { result ≡ is_numeral base text.now }
{
    1 <= text.len() && has_digits(text.as_bytes(), base)
}

/// Tells whether a number is from `least` to `most`.
fn is_within(number: u64, least: u64, most: u64) -> bool
    ensures { result ≡ (nat_le least number && nat_le number most) }
{
    least <= number && number <= most
}

/// Reads a number, which may have leading zeros. None where the text is not digits of the base
/// alone, or where the number is not from `least` to `most`.
#[tactic(auto, unfolding(crate::specs::Numbers::number_of))]
pub(crate) fn number_of(text: &str, base: u32, least: u64, most: u64) -> Option<u64>
    requires low { 2 ≤ base }
    requires high { base ≤ 36 }
    ensures value { result ≡ number_of base least most text.now }
    ensures within { IfSome result (λ n. n ≤ most) }
{
    if !is_numeral(text, base) {
        return None;
    }
    match u64::from_str_radix(text, base) {
        Ok(number) => is_within(number, least, most).then_some(number),
        Err(_) => None,
    }
}

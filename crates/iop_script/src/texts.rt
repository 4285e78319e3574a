//! Parts and numbers of a script's text.

ghost use Rattle.std.specs.Prelude.{◌≡◌, ◌+◌, ◌-◌, ◌^◌, ◌<◌, ◌≤◌, ◌==◌, ◌∷◌, IfSome, min, position, true};
ghost use Rattle.std.specs.Char.{is_ascii_digit};
ghost use Rattle.std.specs.List.{count_by, list_all};
ghost use Rattle.std.specs.Option.{option_copied};
ghost use Rattle.iop_script.specs.Texts.{parts, parts_behind, is_decimal, value_of, number_of};

/// Finds the first separator of a text.
fn first_separator(text: &[u8], separator: u8) -> Option<usize>
    ensures { result ≡ position (λ b. b == separator) text.now }
{
    text.iter().position(|byte| *byte == separator)
}

/// Splits a text at its first separator: what stands before it, and what stands behind it. Without
/// a separator all stands before it.
#[tactic(auto, using(crate::proofs::PartLemmas::first_parts))]
pub(crate) fn split_first(text: &[u8], separator: u8) -> (&[u8], Option<&[u8]>)
    ensures { parts separator text.now
        ≡ result.0.now ∷ parts_behind separator (option_copied result.1) }
{
    match first_separator(text, separator) {
        None => (text, None),
        Some(place) => (&text[..place], Some(&text[place + 1..])),
    }
}

/// Counts the separators of a text.
pub(crate) fn count_separators(text: &[u8], separator: u8) -> usize
    ensures { result ≡ count_by (λ b. b == separator) text.now }
{
    text.iter().filter(|byte| **byte == separator).count()
}

/// Tells whether a field has no byte but digits.
fn has_digits(field: &[u8]) -> bool
    ensures { result ≡ list_all is_ascii_digit field.now }
{
    field.iter().all(|byte| byte.is_ascii_digit())
}

/// Tells whether a field has decimal digits alone, one at least, and no zero before others.
#[tactic(auto, unfolding(crate::specs::Texts::is_decimal))]
fn is_decimal(field: &[u8]) -> bool
    ensures { result ≡ is_decimal field.now }
{
    !field.is_empty() && (field.len() == 1 || field[0] != b'0') && has_digits(field)
}

/// Reads the value of decimal digits; a greater one than 2^64 - 1 counts as that.
fn value_of(digits: &[u8]) -> u64
    requires { list_all is_ascii_digit digits.now ≡ true }
    ensures { result ≡ min (2 ^ 64 - 1) (value_of digits.now) }
{
    let mut value: u64 = 0;
    for digit in digits {
        value = value
            .saturating_mul(10)
            .saturating_add(u64::from(*digit - b'0'));
    }
    value
}

/// Reads the number of a field. None where the field is no decimal number without a leading zero,
/// or where the number is not from `least` to `most`.
#[tactic(auto, using(crate::proofs::Numbers::decimal), unfolding(crate::specs::Texts::number_of))]
pub(crate) fn number_of(field: &[u8], least: u64, most: u64) -> Option<u64>
    requires { most + 1 < 2 ^ 64 }
    ensures value { result ≡ number_of least most field.now }
    ensures within { IfSome result (λ n. n ≤ most) }
{
    if !is_decimal(field) {
        return None;
    }
    let value = value_of(field);
    (least <= value && value <= most).then_some(value)
}

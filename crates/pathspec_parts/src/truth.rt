//! Words of truth, after git's (git help config, "Values"); `docs/DIFFERENCES.md` has the words that git takes otherwise.
ghost use Rattle.std.specs.Prelude.{◌≡◌, bytes_eq, drop, min, ◌-◌, ◌^◌};
ghost use Rattle.std.specs.List.{take_while, prefix_len};
ghost use Rattle.std.specs.Char.{is_ascii_digit};
ghost use Rattle.std.specs.Str.{str_to_ascii_lowercase};
ghost use Rattle.pathspec_parts.specs.Truth.{truth_of, IsTruth, is_yes, is_no, is_unit, number_says, signed_says, decimal_value, fits_64};

/// The least number of `i64` without its sign, which is one more than the greatest.
const LIMIT: u64 = 1 << 63;

/// The value of a word of truth, or None for another word. `yes`, `on` and `true` are true; `no`, `off`, `false` and the empty
/// word are false. A number is true unless it is 0: a sign or none, decimal digits, and a unit `k`, `m` or `g` or none. ASCII
/// case doesn't count. The number without its unit has to lie in `i64`.
///
/// Nothing is trimmed. The call looks at each byte a fixed number of times and takes no memory.
pub fn parse_truth(text: &[u8]) -> Option<bool>
    ensures value { result ≡ truth_of text.now }
    ensures says { IsTruth text.now result }
{
    truth_of(text)
}

/// The value of a word of truth.
#[tactic(auto, unfolding(crate::specs::Truth::truth_of))]
fn truth_of(word: &[u8]) -> Option<bool>
    ensures { result ≡ truth_of word.now }
{
    if is_yes(word) {
        Some(true)
    } else if is_no(word) {
        Some(false)
    } else {
        signed_truth(word)
    }
}

/// Whether a word is one for true.
fn is_yes(word: &[u8]) -> bool
    ensures { result ≡ is_yes (str_to_ascii_lowercase word.now) }
{
    is_word(word, b"yes") || is_word(word, b"on") || is_word(word, b"true")
}

/// Whether a word is one for false.
fn is_no(word: &[u8]) -> bool
    ensures { result ≡ is_no (str_to_ascii_lowercase word.now) }
{
    is_word(word, b"no") || is_word(word, b"off") || is_word(word, b"false") || word.is_empty()
}

/// Whether two words are equal but for ASCII case.
fn is_word(word: &[u8], other: &[u8]) -> bool
    ensures { result
        ≡ bytes_eq (str_to_ascii_lowercase word.now) (str_to_ascii_lowercase other.now) }
{
    word.eq_ignore_ascii_case(other)
}

/// The truth of a number, with its sign or without.
fn signed_truth(word: &[u8]) -> Option<bool>
    ensures { result ≡ signed_says (str_to_ascii_lowercase word.now) }
{
    match word {
        [b'-', number @ ..] => number_truth(true, number),
        [b'+', number @ ..] => number_truth(false, number),
        _ => number_truth(false, word),
    }
}

/// The truth of a number, which stands behind its sign.
fn number_truth(negative: bool, number: &[u8]) -> Option<bool>
    ensures { result ≡ number_says negative (str_to_ascii_lowercase number.now) }
{
    let (digits, unit) = split_digits(number);
    let value = decimal_value(digits);
    if digits.is_empty() || !is_unit(unit) || !fits(negative, value) {
        return None;
    }
    Some(value != 0)
}

/// Splits a text into the digits in front and the rest.
fn split_digits(text: &[u8]) -> (&[u8], &[u8])
    ensures digits { result.0.now ≡ take_while is_ascii_digit text.now }
    ensures rest { result.1.now ≡ drop (prefix_len is_ascii_digit text.now) text.now }
{
    text.split_at(digit_count(text))
}

/// The count of digits in front of a text.
fn digit_count(text: &[u8]) -> usize
    ensures { result ≡ prefix_len is_ascii_digit text.now }
{
    text.iter().copied().take_while(u8::is_ascii_digit).count()
}

/// Whether a text is a unit: empty, or one of `k`, `m` and `g`.
fn is_unit(unit: &[u8]) -> bool
    ensures { result ≡ is_unit (str_to_ascii_lowercase unit.now) }
{
    matches!(unit, [] | [b'k' | b'm' | b'g' | b'K' | b'M' | b'G'])
}

/// The number that decimal digits write, or `u64::MAX` where it is greater. Another byte counts as far as it stands above `0`
/// in ASCII, or as 0.
///
/// The call looks at each byte once and takes no memory.
pub fn decimal_value(digits: &[u8]) -> u64
    ensures { result ≡ min (decimal_value digits.now) (2 ^ 64 - 1) }
{
    let mut value: u64 = 0;
    for digit in digits {
        value = value
            .saturating_mul(10)
            .saturating_add(u64::from(digit.saturating_sub(b'0')));
    }
    value
}

/// Whether a number with its sign lies in `i64`.
fn fits(negative: bool, value: u64) -> bool
    ensures { result ≡ fits_64 negative value }
{
    value < LIMIT || negative && value == LIMIT
}

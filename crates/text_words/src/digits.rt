//! Digits in a base up to 16, with lower-case letters.
ghost use Rattle.std.specs.Prelude.{◌≡◌, ◌≢◌, ℕ, ◌+◌, ◌*◌, ◌<◌, ◌≤◌, ◌^◌, false, length, slice_index, IsTrue, IfSome, IfNone};
ghost use Rattle.std.specs.Fmt.{digits, digit_glyph};

/// The digit of a value below 16.
pub fn digit(value: u8) -> u8
    requires { value < 16 }
    ensures { result ≡ digit_glyph false value }
{
    if value < 10 {
        b'0' + value
    } else {
        b'a' + (value - 10)
    }
}

/// The value of a digit, and 16 where it is none.
fn digit_value(digit: u8) -> u8
    ensures found { result < 16 → digit ≡ digit_glyph false result }
    ensures none { 16 ≤ result → (d : ℕ) → d < 16 → digit ≢ digit_glyph false d }
{
    match digit {
        b'0'..=b'9' => digit - b'0',
        b'a'..=b'f' => digit - b'a' + 10,
        _ => 16,
    }
}

/// The value of a digit that is below the base.
fn digit_below(digit: u8, base: u8) -> Option<u8>
    requires { base ≤ 16 }
    ensures found { IfSome result (λ d. (d < base) × (digit ≡ digit_glyph false d)) }
    ensures none { IfNone result ((d : ℕ) → d < base → digit ≢ digit_glyph false d) }
{
    let value = digit_value(digit);
    if value < base { Some(value) } else { None }
}

/// A number with one more digit at its end.
fn with_digit(number: u64, base: u8, digit: u8) -> Option<u64>
    requires { base ≤ 16 }
    ensures found { IfSome result (λ n. (d : ℕ) × (d < base) × (digit ≡ digit_glyph false d) × (n ≡ number * base + d)) }
    ensures none { IfNone result ((d : ℕ) → d < base → digit ≡ digit_glyph false d → 2 ^ 64 ≤ number * base + d) }
{
    let value = digit_below(digit, base)?;
    number
        .checked_mul(u64::from(base))?
        .checked_add(u64::from(value))
}

/// Whether a word has no digit, or begins with a 0 that is not its only digit.
fn is_no_number(word: &[u8]) -> bool
    ensures yes { IsTrue result → 0 < length word.now → (slice_index word.now 0 ≡ 48) × (1 < length word.now) }
    ensures no { ¬ (IsTrue result) → (0 < length word.now) × (slice_index word.now 0 ≡ 48 → length word.now ≤ 1) }
{
    matches!(word, [] | [b'0', _, ..])
}

/// So many digits in a base up to 16 make no number too large.
const FEW: usize = 16;

/// The number of a word of few digits, which is not to be tested for its size.
#[inline(always)]
fn read_few(word: &[u8], base: u8) -> Option<u64>
    requires base { (2 ≤ base) × (base ≤ 16) }
    requires some { 0 < length word.now }
    requires leading { slice_index word.now 0 ≡ 48 → length word.now ≤ 1 }
    requires few { length word.now ≤ 16 }
    ensures found { IfSome result (λ n. word.now ≡ digits base false n) }
    ensures none { IfNone result ((n : ℕ) → n < 2 ^ 64 → word.now ≢ digits base false n) }
{
    let mut number = 0;
    for byte in word {
        let value = digit_below(*byte, base)?;
        number = number * u64::from(base) + u64::from(value);
    }
    Some(number)
}

/// The number of a word of any length.
fn read_many(word: &[u8], base: u8) -> Option<u64>
    requires base { (2 ≤ base) × (base ≤ 16) }
    requires some { 0 < length word.now }
    requires leading { slice_index word.now 0 ≡ 48 → length word.now ≤ 1 }
    ensures found { IfSome result (λ n. word.now ≡ digits base false n) }
    ensures none { IfNone result ((n : ℕ) → n < 2 ^ 64 → word.now ≢ digits base false n) }
{
    let mut number = 0;
    for byte in word {
        number = with_digit(number, base, *byte)?;
    }
    Some(number)
}

/// The number whose digits in a base from 2 to 16 the word is.
#[inline(always)]
pub fn read_digits(word: &[u8], base: u8) -> Option<u64>
    requires { (2 ≤ base) × (base ≤ 16) }
    ensures found { IfSome result (λ n. word.now ≡ digits base false n) }
    ensures none { IfNone result ((n : ℕ) → n < 2 ^ 64 → word.now ≢ digits base false n) }
{
    if is_no_number(word) {
        return None;
    }
    if word.len() <= FEW {
        read_few(word, base)
    } else {
        read_many(word, base)
    }
}

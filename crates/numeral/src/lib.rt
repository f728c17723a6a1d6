// Numbers in a text, as the Rust's u32::from_str and u32::from_str_radix read them: a plain reader over the base, and a faster one of decimals.
#![tactic(auto)]

ghost use Rattle.std.specs.Prelude.{◌≡◌, ℕ, ◌≤◌, not, ◌==◌, length, position, option_and_then};
ghost use Rattle.numeral.specs.Number.{read_on, number_of};

// The digits of a number: one `+` may stand before them, and there is at least one.
#[tactic(auto, using(crate::proofs::Reading::signs))]
fn unsigned(s: &[u8]) -> Option<&[u8]>
    ensures { (base : ℕ) → number_of base s.now ≡ option_and_then (λ digits. read_on base digits.now 0) result }
{
    match s {
        [] => None, // no digit at all
        [b'+'] => None,
        [b'+', digits @ ..] => Some(digits),
        digits => Some(digits),
    }
}

// Digits in a base, 16 where the code calls it: `read_few` has the decimal ones. The value stays below 2^32 throughout.
#[tactic(auto, using(crate::proofs::Reading::turns))]
fn read(digits: &[u8], base: u32) -> Option<u32>
    requires low { 2 ≤ base }
    requires high { base ≤ 16 }
    ensures { result ≡ read_on base digits.now 0 }
{
    let mut value: u32 = 0;
    for byte in digits {
        let digit = char::from(*byte).to_digit(base)?;
        value = value.checked_mul(base)?.checked_add(digit)?;
    }
    Some(value)
}

// Ten decimal digits at most. They can't exceed 64 bits: the value is tested once, after the last.
#[tactic(auto, using(crate::proofs::Decimals::turns))]
fn read_few(digits: &[u8]) -> Option<u32>
    requires { length digits.now ≤ 10 }
    ensures { result ≡ read_on 10 digits.now 0 }
{
    let mut value: u64 = 0;
    for byte in digits {
        // A byte before `0` wraps to far above 9: one test tells a digit.
        let digit = u64::from(*byte).wrapping_sub(48);
        if 9 < digit {
            return None;
        }
        value = value * 10 + digit;
    }
    u32::try_from(value).ok()
}

// Where the first byte is that is no zero.
fn past_zeros(digits: &[u8]) -> Option<usize>
    ensures { result ≡ position (λ byte. not (byte == 48)) digits.now }
{
    digits.iter().position(|byte| *byte != b'0')
}

// Decimal digits. Eleven that don't begin with a zero are no number below 2^32, whatever they are.
#[tactic(auto, using(crate::proofs::Decimals::zeros))]
fn read_decimal(digits: &[u8]) -> Option<u32>
    ensures { result ≡ read_on 10 digits.now 0 }
{
    let Some(first) = past_zeros(digits) else {
        return Some(0);
    };
    let digits = &digits[first..];
    if 10 < digits.len() {
        return None;
    }
    read_few(digits)
}

// A decimal number, in one pass: its answers are the plain reader's.
pub fn decimal(s: &[u8]) -> Option<u32>
    ensures { result ≡ number_of 10 s.now }
{
    read_decimal(unsigned(s)?)
}

// A hexadecimal number, without the `0x`.
pub fn hex(s: &[u8]) -> Option<u32>
    ensures { result ≡ number_of 16 s.now }
{
    read(unsigned(s)?, 16)
}

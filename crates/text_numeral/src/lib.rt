// What the bytes of a line start with: spaces, visible bytes, a number; and the cause of a fault there.
#![tactic(auto)]

ghost use Rattle.std.specs.Prelude.{◌≡◌};
ghost use Rattle.model.specs.Records.{byte};
ghost use Rattle.text_form.specs.Reading.{cause_at, digits_cause, number_read, numeral, numeral_of, shown, spaces};

use text_form::{Cause, Decimal};

// How many spaces the bytes start with.
pub fn spaces(s: &[u8]) -> usize
    ensures { result ≡ spaces s.now }
{
    s.iter().position(|&c| c != b' ').unwrap_or(s.len())
}

// How many visible bytes the bytes start with.
pub fn shown(s: &[u8]) -> usize
    ensures { result ≡ shown s.now }
{
    s.iter()
        .position(|c| !c.is_ascii_graphic())
        .unwrap_or(s.len())
}

// Byte j, 0 past the end.
pub fn byte_at(s: &[u8], j: usize) -> u8
    ensures { result ≡ byte s.now j }
{
    s.get(j).copied().unwrap_or(0)
}

// The cause of a fault where s stands: invisible bytes that s starts with, and otherwise the one given.
#[tactic(auto, using(text_form::specs::Laws::Scanning::starts_tested), unfolding(text_form::specs::Reading::cause_at, text_form::specs::Reading::mark_bytes))]
pub fn cause_at(given: Cause, s: &[u8]) -> Cause
    ensures { result ≡ cause_at given s.now }
{
    match byte_at(s, 0) {
        b'\r' => Cause::CarriageReturn,
        b'\t' => Cause::Tab,
        _ if s.starts_with(b"\xef\xbb\xbf") => Cause::ByteOrderMark,
        _ => given,
    }
}

// The number whose first three bytes are these.
// Read by hand, since the grammar has no leading zero and three digits at most.
#[tactic(auto, unfolding(text_form::specs::Reading::numeral_of, text_form::specs::Reading::digit))]
fn numeral_of(a: u8, b: u8, c: u8) -> Option<Decimal>
    ensures { result ≡ numeral_of a b c }
{
    if !a.is_ascii_digit() {
        return None;
    }
    if a == b'0' {
        return Some(Decimal { value: 0, width: 1 });
    }
    let x = (a - b'0') as u16;
    if !b.is_ascii_digit() {
        return Some(Decimal { value: x, width: 1 });
    }
    let y = (b - b'0') as u16;
    if !c.is_ascii_digit() {
        return Some(Decimal {
            value: 10 * x + y,
            width: 2,
        });
    }
    let z = (c - b'0') as u16;
    Some(Decimal {
        value: 100 * x + (10 * y + z),
        width: 3,
    })
}

// The number that the bytes start with.
#[tactic(auto, unfolding(text_form::specs::Reading::numeral))]
pub fn numeral(s: &[u8]) -> Option<Decimal>
    ensures { result ≡ numeral s.now }
{
    numeral_of(byte_at(s, 0), byte_at(s, 1), byte_at(s, 2))
}

// The cause of digits after a number of so many.
#[tactic(auto, unfolding(text_form::specs::Reading::digits_cause))]
fn digits_cause(width: usize) -> Cause
    ensures { result ≡ digits_cause width }
{
    if width == 1 {
        Cause::LeadingZero
    } else {
        Cause::TooManyDigits
    }
}

// The number that the bytes start with, or what is wrong with it: it is missing, or digits stand after it.
#[tactic(auto, unfolding(text_form::specs::Reading::number_read, text_form::specs::Reading::number_alone, text_form::specs::Reading::digit))]
pub fn number(missing: Cause, s: &[u8]) -> Result<Decimal, Cause>
    ensures { result ≡ number_read missing s.now }
{
    let Some(n) = numeral(s) else {
        return Err(cause_at(missing, s));
    };
    if byte_at(s, n.width).is_ascii_digit() {
        return Err(digits_cause(n.width));
    }
    Ok(n)
}

// Numbers as a trace writes them.
ghost use Rattle.std.specs.Prelude.{◌≡◌};
ghost use Rattle.hc_trace_text.specs.Numbers.{digits_after, number_of, IsNumberOf};

// The number that digits make. None at another byte, and where it is 2 ^ 64 or more.
fn digits(text: &[u8]) -> Option<u64>
    ensures { result ≡ digits_after 0 text.now }
{
    let mut number: u64 = 0;
    'digits: for c in text {
        if !c.is_ascii_digit() {
            return None;
        }
        number = number.checked_mul(10)?.checked_add(u64::from(*c - b'0'))?;
    }
    Some(number)
}

// The number that digits make, of which no zero leads.
fn plain(text: &[u8]) -> Option<u64>
    ensures { result ≡ number_of text.now }
{
    let first = *text.first()?;
    if first == b'0' && text.len() > 1 {
        return None;
    }
    digits(text)
}

/// A number below 2 ^ 64, in decimal digits of which no zero leads.
pub fn number(text: &[u8]) -> Option<u64>
    ensures number { result ≡ number_of text.now }
    ensures decimal { IsNumberOf text.now result }
{
    plain(text)
}

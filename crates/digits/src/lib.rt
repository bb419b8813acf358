// Reads decimal digits as a number.
#![tactic(auto)]

ghost use Rattle.std.specs.Prelude.{◌≡◌};
ghost use Rattle.digits.specs.Numbers.{number_up_to};

// The number that one or more digits write, cut to the largest one, `most`; none where a byte is no digit.
pub fn number(digits: &[u8], most: u64) -> Option<u64>
    ensures { result ≡ number_up_to most digits.now }
{
    if digits.is_empty() {
        return None;
    }
    // A `try_fold` was tried: its proof goes through the types of the closure, and is no plainer.
    let mut n: u64 = 0;
    for b in digits {
        let digit = char::from(*b).to_digit(10)?;
        n = n
            .saturating_mul(10)
            .saturating_add(u64::from(digit))
            .min(most);
    }
    Some(n)
}

#[cfg(test)]
mod tests {
    use super::*;

    #[test]
    fn read(rt: HostRuntime) {
        assert_eq!(rt; number(b"0", 9), Some(0));
        assert_eq!(rt; number(b"1234567890", u64::MAX), Some(1_234_567_890));
        assert_eq!(rt; number(b"007", 9), Some(7));
    }

    #[test]
    fn cut_to_the_largest(rt: HostRuntime) {
        assert_eq!(rt; number(b"9", 9), Some(9));
        assert_eq!(rt; number(b"10", 9), Some(9));
        assert_eq!(rt; number(b"5", 0), Some(0));
        assert_eq!(rt; number(b"268435456", 0x0fff_ffff), Some(268_435_455));
        assert_eq!(rt; number(b"18446744073709551615", u64::MAX), Some(u64::MAX));
        assert_eq!(rt; number(b"18446744073709551616", u64::MAX), Some(u64::MAX));
        assert_eq!(rt;
            number(b"1000000000000000000000000", u64::MAX),
            Some(u64::MAX)
        );
    }

    #[test]
    fn no_number(rt: HostRuntime) {
        assert_eq!(rt; number(b"", 9), None);
        assert_eq!(rt; number(b"+1", 9), None);
        assert_eq!(rt; number(b"1 ", 9), None);
        assert_eq!(rt; number(b"1x", 9), None);
        assert_eq!(rt; number(b"999x", 9), None);
        assert_eq!(rt; number(b"/", 9), None);
        assert_eq!(rt; number(b":", 9), None);
    }
}

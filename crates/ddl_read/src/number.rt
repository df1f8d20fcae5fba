ghost use Rattle.std.specs.Prelude.{◌≡◌};
ghost use Rattle.ddl_read.specs.Spelled.{kept_number};

use hs_base::LAST;

/// The number that digits spell, or LAST + 1 where there are more than ten of them or it is
/// greater than LAST.
pub fn number_of(digits: &[u8]) -> i64
    ensures { result ≡ kept_number digits.now }
{
    if digits.len() > 10 {
        return LAST + 1;
    }
    let mut number: u64 = 0;
    'digits: for digit in digits {
        number = 10 * number + u64::from(digit.saturating_sub(b'0'));
        if number > LAST as u64 {
            return LAST + 1;
        }
    }
    number as i64
}

ghost use Rattle.std.specs.Prelude.{◌≡◌, ◌+◌, ◌-◌, ◌*◌, ◌^◌, if◌then◌else◌, Some, None, nat_lt};
ghost use Rattle.tokens.specs.Tokens.{value, number_of};

// The number with one digit more, if it has 64 bits.
fn with_digit(n: u64, digit: u8) -> Option<u64>
    ensures { result ≡ (if nat_lt (10 * n + (digit - 48)) (2 ^ 64) then Some (10 * n + (digit - 48)) else None) }
{
    n.checked_mul(10)?
        .checked_add(u64::from(digit.saturating_sub(b'0')))
}

// The number that digits write, if it has 64 bits.
#[tactic(auto, using(crate::proofs::Digits::value_fold))]
fn value_of(digits: &[u8]) -> Option<u64>
    ensures { result ≡ (if nat_lt (value digits.now) (2 ^ 64) then Some (value digits.now) else None) }
{
    digits.iter().try_fold(0, |n, digit| with_digit(n, *digit))
}

// The same, and none for two digits or more with a 0 in front.
pub fn number_of(digits: &[u8]) -> Option<u64>
    ensures { result ≡ number_of digits.now }
{
    match digits {
        [b'0', _, ..] => None,
        _ => value_of(digits),
    }
}

//! Remainders by one divisor, each without a division.
ghost use Rattle.std.specs.Prelude.{◌%◌, ◌*◌, ◌+◌, ◌-◌, ◌/◌, ◌<◌, ◌^◌, ◌≡◌, ◌≤◌};

/// A divisor and its reciprocal, which takes remainders without a division.
#[repr(C)]
#[derive(Clone, Copy, Debug)]
pub struct Reciprocal {
    divisor: u64,
    // The quotient of 2^64 - 1 and the divisor.
    inverse: u64,
    ghost some: { 0 < divisor },
    ghost is: { inverse ≡ (2 ^ 64 - 1) / divisor },
}

// Returns the quotient of a product and 2^64.
#[inline]
fn high_half(left: u64, right: u64) -> u64
    ensures low { result * 2 ^ 64 ≤ left * right }
    ensures high { left * right < result * 2 ^ 64 + 2 ^ 64 }
{
    ((left as u128 * right as u128) >> 64) as u64
}

impl Reciprocal {
    ghost use Rattle.rkyv_table.specs.{divisor_of};

    /// Returns the reciprocal of a divisor, with one division.
    #[inline]
    pub fn new(divisor: u64) -> Reciprocal
        requires { 0 < divisor }
        ensures { divisor_of result ≡ divisor }
    {
        Reciprocal {
            divisor,
            inverse: u64::MAX / divisor,
        }
    }

    /// Returns the remainder of an integer by the divisor.
    #[inline]
    pub fn remainder(self, number: u64) -> u64
        ensures { result ≡ number % divisor_of self }
    {
        // The quotient, or one less.
        let quotient = high_half(number, self.inverse);
        let rest = number - quotient * self.divisor;
        if rest < self.divisor {
            rest
        } else {
            rest - self.divisor
        }
    }
}

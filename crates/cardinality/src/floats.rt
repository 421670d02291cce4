// The floats that the counts begin with, and the powers of two that scale them.
ghost use Rattle.std.specs.Prelude.{◌≡◌, ◌<◌};
ghost use Rattle.cardinality.specs.Cardinality.{nought as zeroFloat, power_of_two};

// 0.0
pub(crate) fn nought() -> f64
    ensures { result ≡ zeroFloat }
{
    0.0
}

// 2^k, made from its bits: the exponent's field is k above that of 1.0, and all digits below the leading one are zero.
pub(crate) fn power_of_two(k: u32) -> f64
    requires { k < 1024 }
    ensures { result ≡ power_of_two k }
{
    f64::from_bits((1023 + k as u64) * 4503599627370496)
}

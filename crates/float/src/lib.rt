// Real and DoublePrecision compared by value, for "Same content", which 01 adds to the Rust.
#![tactic(auto)]

ghost use Rattle.std.specs.Prelude.{◌≡◌, ℕ};
ghost use Rattle.std.specs.Float.{Format, binary32, binary64, NotNan};
ghost use Rattle.std.specs.Float.Ieee.{is_nan, eq, of_bits};
ghost use Rattle.float.specs.Same.{same_value};

// The bits of a float: a u32 those of an f32, a u64 those of an f64.
pub trait FloatBits: Copy {
    ghost format: { Format };

    ghost bits: { Self → ℕ };

    // A NaN's pattern: without its sign bit it lies above infinity.
    fn is_nan(self) -> bool
        ensures { result ≡ is_nan (of_bits format (bits self)) };

    // The floats' own `==`. A NaN's pattern cannot become a float.
    fn eq_float(self, other: Self) -> bool
        requires { NotNan (of_bits format (bits self)) × NotNan (of_bits format (bits other)) }
        ensures { result ≡ eq (of_bits format (bits self)) (of_bits format (bits other)) };
}

impl FloatBits for u32 {
    ghost format = { binary32 };

    ghost bits = { λ a. a };

    fn is_nan(self) -> bool {
        0x7F80_0000 < self % 0x8000_0000
    }

    #[tactic(auto, using(crate::proofs::Nan::no_nan))]
    fn eq_float(self, other: u32) -> bool {
        f32::from_bits(self) == f32::from_bits(other)
    }
}

impl FloatBits for u64 {
    ghost format = { binary64 };

    ghost bits = { λ a. a };

    fn is_nan(self) -> bool {
        0x7FF0_0000_0000_0000 < self % 0x8000_0000_0000_0000
    }

    #[tactic(auto, using(crate::proofs::Nan::no_nan))]
    fn eq_float(self, other: u64) -> bool {
        f64::from_bits(self) == f64::from_bits(other)
    }
}

// Whether two patterns have the same value: NaNs are told by their patterns, all others are compared as floats.
pub fn same_value<T: FloatBits>(a: T, b: T) -> bool
    ensures { result ≡ same_value T.format (T.bits a) (T.bits b) }
{
    let (a_nan, b_nan) = (a.is_nan(), b.is_nan());
    if a_nan || b_nan {
        a_nan && b_nan
    } else {
        a.eq_float(b)
    }
}

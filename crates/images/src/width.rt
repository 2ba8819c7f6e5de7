// How many bits a field has, and two's complement in that many.
ghost use Rattle.std.specs.Prelude.{◌≡◌, ◌^◌, ◌<◌, ◌≤◌, true};
ghost use Rattle.image_model.specs.Image.{signed, bits_of, lowest, highest};
ghost use Rattle.image_model.specs.Fields.{fits};

// The width of a field: 2 to 16 bits.
#[derive(Clone, Copy, Drop)]
pub(crate) struct Width {
    pub(crate) bits: u8,
    ghost wide: { 2 ≤ bits },
    ghost slim: { bits ≤ 16 },
}

impl Width {
    pub(crate) fn lowest(self) -> i32
        ensures { result ≡ lowest self.bits }
    {
        -(1 << (self.bits - 1))
    }

    pub(crate) fn highest(self) -> i32
        ensures { result ≡ highest self.bits }
    {
        (1 << (self.bits - 1)) - 1
    }

    // Whether v lies in the range of the field.
    pub(crate) fn fits(self, v: i32) -> bool
        ensures { result ≡ fits self.bits v }
    {
        self.lowest() <= v && v <= self.highest()
    }

    // The number that these bits stand for.
    pub(crate) fn signed(self, bits: u32) -> i32
        requires { bits < 2 ^ self.bits }
        ensures { result ≡ signed self.bits bits }
    {
        if bits < 1 << (self.bits - 1) {
            bits as i32
        } else {
            bits as i32 - (1 << self.bits)
        }
    }

    // And back: the bits of a number.
    pub(crate) fn twos_complement(self, v: i32) -> u32
        requires { fits self.bits v ≡ true }
        ensures { result ≡ bits_of self.bits v }
    {
        if v >= 0 {
            v.unsigned_abs()
        } else {
            (1 << self.bits) - v.unsigned_abs()
        }
    }
}

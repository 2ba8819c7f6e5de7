// Runs of up to 16 bits in a row of bytes, by shift and mask.
ghost use Rattle.std.specs.Prelude.{◌≡◌, ℕ, ◌+◌, ◌-◌, ◌*◌, ◌/◌, ◌%◌, ◌^◌, ◌<◌, ◌≤◌, ◌&&◌, length, if◌then◌else◌, nat_lt};
ghost use Rattle.basics.specs.Sets.{has};
ghost use Rattle.image_model.specs.Image.{image_bit, number, with_field};

// A number of `width` ones. No `Width`, here and below: the spare bits after the last field are a run too, maybe of none.
fn ones(width: u8) -> u32
    requires { width ≤ 16 }
    ensures { result ≡ 2 ^ width - 1 }
{
    (1 << width) - 1
}

// How many bits of its last byte stand after a run that ends at bit `end`.
pub(crate) fn spare_after(end: usize) -> u8
    ensures { result ≡ (8 - end % 8) % 8 }
{
    ((8 - end % 8) % 8) as u8
}

// The `take` bits of a number that stand above its lowest `shift` bits.
fn piece_of(whole: u32, shift: usize, take: usize) -> u32
    requires { shift + take ≤ 16 }
    ensures { result ≡ (whole / 2 ^ shift) % 2 ^ take }
{
    (whole >> shift) % (1 << take)
}

// The eight bits of a number above its lowest `shift` bits.
fn byte_of(whole: u32, shift: usize) -> u8
    requires { shift ≤ 24 }
    ensures { (p : ℕ) → has result p ≡ (nat_lt p 8 && has whole (shift + p)) }
{
    ((whole >> shift) & 0xff) as u8
}

// The byte with the bits of the mask replaced by those of `bits`.
fn patched(byte: u8, mask: u8, bits: u8) -> u8
    ensures { (p : ℕ) → has result p ≡ (if has mask p then has bits p else has byte p) }
{
    (byte & !mask) | (bits & mask)
}

// The number in the `width` bits from bit `at` on.
pub(crate) fn read_bits(image: &[u8], at: u16, width: u8) -> u32
    requires slim { width ≤ 16 }
    requires inside { at + width ≤ 8 * length image.now }
    ensures { result ≡ number (image_bit image.now) at width }
{
    let end = usize::from(at) + usize::from(width);
    let mut from = usize::from(at);
    let mut number = 0;
    for byte in &image[usize::from(at / 8)..end.div_ceil(8)] {
        // Of this byte the bits from `from` on, as many as the run has.
        let room = 8 - from % 8;
        let take = room.min(end - from);
        let shift = room - take;
        number = (number << take) | piece_of(u32::from(*byte), shift, take);
        from += take;
    }
    number
}

// Replaces the `width` bits from bit `at` on by those of `bits`.
pub(crate) fn write_bits(image: &mut [u8], at: u16, width: u8, bits: u32)
    requires slim { width ≤ 16 }
    requires inside { at + width ≤ 8 * length image.old }
    requires small { bits < 2 ^ width }
    ensures { (i : ℕ) → image_bit image.new i ≡ with_field (image_bit image.old) at width bits i }
{
    let end = usize::from(at) + usize::from(width);
    let spare = spare_after(end);
    let mask = ones(width) << spare;
    let run = bits << spare;
    let bytes = &mut image[usize::from(at / 8)..end.div_ceil(8)];
    let count = bytes.len();
    for (k, byte) in bytes.iter_mut().enumerate() {
        let shift = 8 * (count - 1 - k);
        *byte = patched(*byte, byte_of(mask, shift), byte_of(run, shift));
    }
}

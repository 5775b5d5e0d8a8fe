// Signed 32-bit numbers: the sum, the order, four bytes or one and a number, where a jump leads. Every operation on
// signed numbers that needs a proof stands here.
#![tactic(auto)]

ghost use Rattle.std.specs.Prelude.{◌≡◌, ◌+◌, ◌<◌, ◌≤◌, length, ◌+ℤ◌};
ghost use Rattle.std.specs.Int.Signed.{lt_z};
ghost use Rattle.word.specs.Sums.{clamped};
ghost use Rattle.word.specs.Numbers.{number_of, number_at, byte_number, bits_of, bytes_of};
ghost use Rattle.word.specs.Targets.{target};

// The sum of two numbers, or the limit that it is past.
pub fn add(x: i32, y: i32) -> i32
    ensures { result ≡ clamped (x +ℤ y) }
{
    // `saturating_add` takes twice the instructions.
    (i64::from(x) + i64::from(y)).clamp(i64::from(i32::MIN), i64::from(i32::MAX)) as i32
}

// Whether the first number is below the second.
pub fn less(x: i32, y: i32) -> bool
    ensures { result ≡ lt_z x y }
{
    x < y
}

// The number of four bytes, lowest first.
pub fn number(b0: u8, b1: u8, b2: u8, b3: u8) -> i32
    ensures { result ≡ number_of b0 b1 b2 b3 }
{
    i32::from_le_bytes([b0, b1, b2, b3])
}

// The number of the four bytes from a position on.
pub fn number_at(bytes: &[u8], at: usize) -> i32
    requires { at + 4 ≤ length bytes.now }
    ensures { result ≡ number_at bytes.now at }
{
    number(bytes[at], bytes[at + 1], bytes[at + 2], bytes[at + 3])
}

// The number of one signed byte.
pub fn byte_number(b: u8) -> i32
    ensures { result ≡ byte_number b }
{
    i32::from(b.cast_signed())
}

// A number's 32 bits, unsigned.
pub fn bits(z: i32) -> u32
    ensures { result ≡ bits_of z }
{
    z.cast_unsigned()
}

// A number's four bytes, lowest first.
pub fn bytes(z: i32) -> [u8; 4]
    ensures { result ≡ bytes_of z }
{
    z.to_le_bytes()
}

// Where a taken jump leads: its operand is added to the position of the record after it. `None`: outside the code.
pub fn jump(position: usize, operand: i32, last: usize) -> Option<usize>
    requires { (position < last) × (last ≤ 4096) }
    ensures { result ≡ target position operand last }
{
    let reached = position as i64 + 1 + i64::from(operand);
    // `usize::try_from` takes two instructions more.
    if 0 <= reached && reached <= last as i64 {
        Some(reached as usize)
    } else {
        None
    }
}

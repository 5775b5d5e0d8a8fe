// The shape of a text: the first byte of each construct, a constant's value and width. Nothing else knows how many
// bytes a constant has.
#![tactic(auto)]

ghost use Rattle.std.specs.Prelude.{◌≡◌, ◌+◌, ◌≤◌, length, get_or};
ghost use Rattle.text_shape.specs.Shape.{constant_width, constant_at};

// ---- The first byte of each construct

pub const SKIP: u8 = 0x00;

pub const ASSIGN: u8 = 0x01;

pub const SEQUENCE: u8 = 0x02;

pub const IF: u8 = 0x03;

pub const WHILE: u8 = 0x04;

pub const CONSTANT: u8 = 0x10;

pub const VARIABLE: u8 = 0x11;

pub const PLUS: u8 = 0x12;

pub const ONE_BYTE_CONSTANT: u8 = 0x13;

pub const BC: u8 = 0x20;

pub const NOT: u8 = 0x21;

pub const AND: u8 = 0x22;

pub const LESS: u8 = 0x23;

// ---- Constants

// A constant: its value, and the bytes of its operand.
#[derive(Clone, Copy)]
pub struct Constant {
    pub value: i32,
    pub width: usize,
}

// The bytes of a constant's operand, by the constant's first byte.
pub fn constant_width(byte: u8) -> usize
    ensures { result ≡ constant_width byte }
{
    if byte == ONE_BYTE_CONSTANT { 1 } else { 4 }
}

// The constant whose first byte stands at a position.
pub fn constant_at(text: &[u8], at: usize) -> Constant
    requires { at + (1 + constant_width (get_or text.now at 0)) ≤ length text.now }
    ensures { result ≡ constant_at text.now at }
{
    let width = constant_width(text[at]);
    let value = match width {
        1 => word::byte_number(text[at + 1]),
        _ => word::number_at(text, at + 1),
    };
    Constant { value, width }
}

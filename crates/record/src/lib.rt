// Records of both kinds: their bytes, what stands at an index of code, and one record put into a buffer.
#![tactic(auto)]

ghost use Rattle.std.specs.Prelude.{◌≡◌, ◌∷◌, ◌+◌, ◌*◌, ◌<◌, ◌≤◌, length, get_or};
ghost use Rattle.word.specs.Numbers.{number_at, bytes_of};
ghost use Rattle.record.specs.Bytes.{operation};
ghost use Rattle.record.specs.Buffer.{into};
ghost use Rattle.record.specs.Code.{operation_of, named_at};

// What LOAD and STORE name: a variable number (0 to 63) in assembly, an address (1 to n) in machine code.
// Neither can be given for the other.
#[derive(Clone, Copy)]
pub struct Variable(pub usize);

#[derive(Clone, Copy)]
pub struct Address(pub usize);

// A record is one byte and a four-byte operand.
pub const RECORD_BYTES: usize = 5;

// The most records in one code.
pub const MOST_RECORDS: usize = 4096;

// ---- The first byte of each record: of assembly, and of machine code, whose names have M in front

pub const LOADI: u8 = 0x40;

pub const LOAD: u8 = 0x41;

pub const ADD: u8 = 0x42;

pub const STORE: u8 = 0x43;

pub const JMP: u8 = 0x44;

pub const JMPLESS: u8 = 0x45;

pub const JMPGE: u8 = 0x46;

pub const MLOADI: u8 = 0x50;

pub const MLOAD: u8 = 0x51;

pub const MADD: u8 = 0x52;

pub const MSTORE: u8 = 0x53;

pub const MJMP: u8 = 0x54;

pub const MJMPLESS: u8 = 0x55;

pub const MJMPGE: u8 = 0x56;

// ---- Operations

// What a record does, whichever its kind.
#[derive(Clone, Copy)]
pub enum Operation {
    Loadi,
    Load,
    Add,
    Store,
    Jmp,
    Jmpless,
    Jmpge,
}

impl Operation {
    // What a record's first byte stands for in code whose LOADI is `loadi`.
    pub fn of(byte: u8, loadi: u8) -> Option<Self>
        ensures { operation_of result ≡ operation loadi byte }
    {
        match byte.checked_sub(loadi)? {
            0 => Some(Operation::Loadi),
            1 => Some(Operation::Load),
            2 => Some(Operation::Add),
            3 => Some(Operation::Store),
            4 => Some(Operation::Jmp),
            5 => Some(Operation::Jmpless),
            6 => Some(Operation::Jmpge),
            _ => None,
        }
    }
}

// ---- Reading

// The first byte of the record at an index.
pub fn byte_at(code: &[u8], i: usize) -> u8
    requires { 5 * i < length code.now }
    ensures { result ≡ get_or code.now (5 * i) 0 }
{
    code[RECORD_BYTES * i]
}

// The operand of the record at an index.
pub fn operand_at(code: &[u8], i: usize) -> i32
    requires { 5 * i + 4 < length code.now }
    ensures { result ≡ number_at code.now (5 * i + 1) }
{
    word::number_at(code, RECORD_BYTES * i + 1)
}

// The operand's lowest byte, which is the name where LOAD or STORE names a number below 256.
pub fn name_at(code: &[u8], i: usize) -> usize
    requires { 5 * i + 1 < length code.now }
    ensures { result ≡ get_or code.now (5 * i + 1) 0 }
{
    usize::from(code[RECORD_BYTES * i + 1])
}

// The name in the record at an index, if it is LOAD or STORE, in code whose LOADI is `loadi` and whose names are below
// 256.
pub fn named_at(code: &[u8], i: usize, loadi: u8) -> Option<usize>
    requires { 5 * i + 1 < length code.now }
    ensures { result ≡ named_at loadi code.now i }
{
    match Operation::of(byte_at(code, i), loadi)? {
        Operation::Load | Operation::Store => Some(name_at(code, i)),
        _ => None,
    }
}

// ---- Writing

// One record at an index: its first byte and its operand. Every other byte stays as it was.
pub fn put_record(out: &mut [u8], index: usize, first: u8, operand: i32)
    requires { 5 * index + 5 ≤ length out.old }
    ensures { out.new ≡ into (5 * index) (first ∷ bytes_of operand) out.old }
{
    let at = RECORD_BYTES * index;
    out[at] = first;
    out[at + 1..at + RECORD_BYTES].copy_from_slice(&word::bytes(operand));
}

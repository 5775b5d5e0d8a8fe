// The test of code: whole records (9), each of its kind (10); and the tests of a call on machine code (9, 10, 11).
#![tactic(auto)]

ghost use Rattle.std.specs.Prelude.{◌≡◌, ◌&&◌, ◌*◌, ◌≤◌, ltb, leb, length};
ghost use Rattle.base.specs.Answers.{gives, and_then};
ghost use Rattle.base.specs.Code.{count_answer};
ghost use Rattle.record.specs.Bytes.{record_of, operation, whole_records};
ghost use Rattle.record.specs.Code.{operation_of};
ghost use Rattle.record_test.specs.Code.{kind_of, assembly_numbers, machine_numbers, is_some, Tested};
ghost use Rattle.record_test.specs.Tests.{code_tests};

use base::{Reason, Refusal};
use record::{LOADI, MLOADI, MOST_RECORDS, Operation, RECORD_BYTES, byte_at, operand_at};

// A kind of record: the byte of its LOADI, and the least and the greatest number that is a name.
#[derive(Clone, Copy)]
pub struct Kind {
    pub first: u8,
    pub least: u64,
    pub most: u64,
}

// Refusal 9's test: whole records, and at most 4,096 of them.
pub fn is_whole(code: &[u8]) -> bool
    ensures { result ≡ whole_records code.now }
{
    code.len() % RECORD_BYTES == 0 && code.len() / RECORD_BYTES <= MOST_RECORDS
}

impl Kind {
    // Variables count from 0 to 63.
    pub fn assembly() -> Self
        ensures { result ≡ assembly_numbers }
    {
        Self {
            first: LOADI,
            least: 0,
            most: u64::from(base::LAST_VARIABLE),
        }
    }

    // Addresses count from 1 to n, whatever n is given.
    pub fn machine(n: u64) -> Self
        ensures { result ≡ machine_numbers n }
    {
        Self {
            first: MLOADI,
            least: 1,
            most: n,
        }
    }

    // Whether an operand of these bits is a name. One below 0 has 2147483648 or more, and is none.
    fn is_name(self, bits: u32) -> bool
        ensures { result ≡ ltb bits 2147483648 && (leb self.least bits && leb bits self.most) }
    {
        let name = u64::from(bits);
        bits < 2147483648 && self.least <= name && name <= self.most
    }

    // Whether a record of this operation may have this operand.
    fn takes(self, operation: Operation, operand: i32) -> bool
        ensures { result ≡ is_some (record_of (kind_of self) (operation_of (Some operation)) operand) }
    {
        match operation {
            Operation::Load | Operation::Store => self.is_name(word::bits(operand)),
            Operation::Add => operand == 0,
            _ => true,
        }
    }

    // Whether this byte and this operand are a record of this kind.
    fn is_record(self, byte: u8, operand: i32) -> bool
        ensures { result ≡ is_some (record_of (kind_of self) (operation self.first byte) operand) }
    {
        match Operation::of(byte, self.first) {
            Some(operation) => self.takes(operation, operand),
            None => false,
        }
    }

    // Refusal 10's place: the index of the first that is no record of this kind, if there is one.
    pub fn mismatch(self, code: &[u8], count: usize) -> Option<usize>
        requires { 5 * count ≤ length code.now }
        ensures { Tested (kind_of self) code.now count result }
    {
        for i in 0..count {
            if !self.is_record(byte_at(code, i), operand_at(code, i)) {
                return Some(i);
            }
        }
        None
    }
}

// The tests of a call on machine code, in the document's order: refusals 9, 10, and 11, of which the call tells whether
// it `fits`. Gives the number of records.
pub fn test_machine(code: &[u8], cells: u64, fits: bool) -> Result<usize, Refusal>
    ensures { count_answer result
        ≡ and_then (code_tests code.now cells fits) (λ P. gives (length P)) }
{
    if !is_whole(code) {
        return Err(Reason::NotWhole.at(0));
    }
    let last = code.len() / RECORD_BYTES;
    if let Some(place) = Kind::machine(cells).mismatch(code, last) {
        return Err(Reason::NoRecord.at(place));
    }
    if !fits {
        return Err(Reason::WrongMemory.at(0));
    }
    Ok(last)
}

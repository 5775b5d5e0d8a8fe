// The record lines that the printing program prints, assembly and machine beside each other, on a page. Each function
// puts one thing, and asks for room for the longest such thing.
#![tactic(auto)]

ghost use Rattle.std.specs.Prelude.{◌≡◌, ℕ, ◌+◌, ◌*◌, ◌<◌, ◌≤◌, ◌++◌, length, Some};
ghost use Rattle.record.specs.Records.{AssemblyCode, MachineCode};
ghost use Rattle.record.specs.Code.{operation_of};
ghost use Rattle.print_ascii.specs.Puts.{Prints};
ghost use Rattle.print.specs.Ascii.{ascii};
ghost use Rattle.print.specs.Numbers.{signed};
ghost use Rattle.print.specs.Printing.{record_lines};
ghost use Rattle.print_records.specs.Lines.{operation_name, operation_operand, text_at, line_at, Codes};

use print_ascii::Page;
use record::{LOADI, MLOADI, Operation};

// The name of an operation.
fn name(operation: Operation) -> &'static [u8]
    ensures { result.now ≡ operation_name (operation_of (Some operation)) }
{
    match operation {
        Operation::Loadi => b"LOADI",
        Operation::Load => b"LOAD",
        Operation::Add => b"ADD",
        Operation::Store => b"STORE",
        Operation::Jmp => b"JMP",
        Operation::Jmpless => b"JMPLESS",
        Operation::Jmpge => b"JMPGE",
    }
}

// The name of what a record's first byte stands for, none if it stands for nothing: at most 7 bytes.
fn put_name(page: &mut Page, operation: Option<Operation>)
    requires { page.old.at + 7 ≤ length page.old.out.now }
    ensures { Prints (operation_name (operation_of operation)) page.old page.new }
{
    if let Some(named) = operation {
        page.put_word(name(named));
    }
}

// A blank and an operand: at most 1 + 11 bytes.
fn put_number(page: &mut Page, operand: i32)
    requires { page.old.at + 12 ≤ length page.old.out.now }
    ensures { Prints (ascii " " ++ signed operand) page.old page.new }
{
    page.put_byte(b' ');
    page.put_signed(operand);
}

// An operation's operand after a blank, and nothing for ADD.
fn put_operand(page: &mut Page, operation: Operation, operand: i32)
    requires { page.old.at + 12 ≤ length page.old.out.now }
    ensures { Prints (operation_operand (operation_of (Some operation)) operand) page.old page.new }
{
    match operation {
        Operation::Add => {}
        _ => put_number(page, operand),
    }
}

// The record at an index: its name, and its operand after a blank unless it is ADD. At most 7 + 1 + 11 bytes.
fn put_record(page: &mut Page, first: u8, code: &[u8], i: usize)
    requires { (page.old.at + 19 ≤ length page.old.out.now) × (first ≤ 80) × (5 * i + 5 ≤ length code.now) }
    ensures { Prints (text_at first code.now i) page.old page.new }
{
    let operation = Operation::of(record::byte_at(code, i), first);
    put_name(page, operation);
    let operand = record::operand_at(code, i);
    match operation {
        Some(named) => put_operand(page, named, operand),
        None => put_number(page, operand),
    }
}

// One position: its number, its assembly record and its machine record. At most 4 + 1 + 19 + 4 + 19 + 1 bytes.
fn put_record_line(page: &mut Page, assembly: &[u8], machine: &[u8], i: usize)
    requires room { (page.old.at + 48 ≤ length page.old.out.now) × (i < 10000) }
    requires i_in_bounds { (5 * i + 5 ≤ length assembly.now) × (5 * i + 5 ≤ length machine.now) }
    ensures { Prints (line_at assembly.now machine.now i) page.old page.new }
{
    page.put_decimal(i);
    page.put_byte(b' ');
    put_record(page, LOADI, assembly, i);
    page.put_word(b" | M");
    put_record(page, MLOADI, machine, i);
    page.put_byte(b'\n');
}

// The lines of both codes, `count` records each: P and Q, whatever n the machine code was tested with.
pub fn put_record_lines(page: &mut Page, assembly: &[u8], machine: &[u8], count: usize)
    requires room { (page.old.at + 48 * count ≤ length page.old.out.now) × (count ≤ 4096) }
    requires codes { (5 * count ≤ length assembly.now) × (5 * count ≤ length machine.now) }
    ensures { (n : ℕ) (P : AssemblyCode) (Q : MachineCode)
        → Codes assembly.now machine.now count n P Q
        → Prints (record_lines 0 P Q) page.old page.new }
{
    for i in 0..count {
        put_record_line(page, assembly, machine, i);
    }
}

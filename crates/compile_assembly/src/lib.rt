// The first compiling stage, and the call `assemble`: a text's assembly records, written into a lent buffer. Each
// part's writer gets the buffer from where the part's records are to stand. Where a jump's distance is known only after
// the records that it jumps over, these are written first, where they will stand. A test is measured first, which notes
// the sizes (`sizes`) that its writer looks up.
#![tactic(auto)]

ghost use Rattle.std.specs.Prelude.{◌≡◌, ◌<◌, negsuc, get_or};
ghost use Rattle.base.specs.Answers.{gives, and_then};
ghost use Rattle.text.specs.Code.{sizes_answer};
ghost use Rattle.text.specs.Reading.{command};
ghost use Rattle.text.specs.Sizes.{sizes};
ghost use Rattle.text.specs.Syntax.{Command};
ghost use Rattle.record.specs.Bytes.{assembly_kind, code_bytes, over};
ghost use Rattle.compile.specs.Compilation.{ccomp};
ghost use Rattle.compile.specs.Calls.{assemble_tests, assemble};
ghost use Rattle.compile_sizes.specs.Cache.{ConditionSizes};
ghost use Rattle.compile_conditions.specs.Parts.{Writable, Writes};

use base::{Reason, Refusal};
use compile_conditions::{write_condition, write_expression};
use compile_sizes::{PartSize, SizeCache, condition_size};
use record::{JMP, RECORD_BYTES, STORE, put_record};
use text::Sizes;
use text_shape::{ASSIGN, IF, SEQUENCE, SKIP};

// ---- Commands

// −1 − n: the jump back over n records and the jump itself.
fn back_over(n: usize) -> i32
    requires { n < 2147483648 }
    ensures { result ≡ negsuc n }
{
    -1 - (n as i32)
}

// An assignment's records: the expression's, and STORE.
fn write_assignment(text: &[u8], at: usize, nest: usize, out: &mut [u8]) -> PartSize
    requires first_byte { get_or text.now at 0 ≡ 0x01 }
    requires writable { Writable ccomp 0 (command text.now nest at) out.old }
    ensures { Writes ccomp (command text.now nest at) out.old out.new result }
{
    let value = write_expression(text, at + 2, nest - 1, out);
    put_record(out, value.records, STORE, i32::from(text[at + 1]));
    PartSize {
        next: value.next,
        records: value.records + 1,
    }
}

// A sequence's records: the first command's, and the second's.
#[cycle(write_command_write_if_write_sequence_write_while)]
fn write_sequence(
    text: &[u8],
    at: usize,
    nest: usize,
    sizes: &mut SizeCache,
    out: &mut [u8],
) -> PartSize
    requires first_byte { get_or text.now at 0 ≡ 0x02 }
    requires writable { Writable ccomp 0 (command text.now nest at) out.old }
    requires condition_sizes { ConditionSizes text.now sizes.old }
    ensures writes { Writes ccomp (command text.now nest at) out.old out.new result }
    ensures condition_sizes_after { ConditionSizes text.now sizes.new }
{
    let inner = nest - 1;
    let first = write_command(text, at + 1, inner, sizes, out);
    let rest = &mut out[RECORD_BYTES * first.records..];
    let second = write_command(text, first.next, inner, sizes, rest);
    PartSize {
        next: second.next,
        records: first.records + second.records,
    }
}

// IF's records: the condition's, which jump to the second branch; the first branch's, the jump over the second; the
// second's. Both branches are written where they will stand, then the jump between them, then the condition.
#[cycle(write_command_write_if_write_sequence_write_while)]
fn write_if(text: &[u8], at: usize, nest: usize, sizes: &mut SizeCache, out: &mut [u8]) -> PartSize
    requires first_byte { get_or text.now at 0 ≡ 0x03 }
    requires writable { Writable ccomp 0 (command text.now nest at) out.old }
    requires condition_sizes { ConditionSizes text.now sizes.old }
    ensures writes { Writes ccomp (command text.now nest at) out.old out.new result }
    ensures condition_sizes_after { ConditionSizes text.now sizes.new }
{
    let inner = nest - 1;
    let test = condition_size(text, at + 1, inner, false, sizes);
    let behind_test = &mut out[RECORD_BYTES * test.records..];
    let yes = write_command(text, test.next, inner, sizes, behind_test);
    let jump = test.records + yes.records;
    let behind_jump = &mut out[RECORD_BYTES * (jump + 1)..];
    let no = write_command(text, yes.next, inner, sizes, behind_jump);
    put_record(out, jump, JMP, no.records as i32);
    let over = yes.records + 1;
    write_condition(text, at + 1, inner, false, over, test.records, sizes, out);
    PartSize {
        next: no.next,
        records: jump + 1 + no.records,
    }
}

// WHILE's records: the condition's, which jump to the end; the body's; and the jump back. The body is written where it
// will stand, then the jump, then the condition.
#[cycle(write_command_write_if_write_sequence_write_while)]
fn write_while(
    text: &[u8],
    at: usize,
    nest: usize,
    sizes: &mut SizeCache,
    out: &mut [u8],
) -> PartSize
    requires first_byte { get_or text.now at 0 ≡ 0x04 }
    requires writable { Writable ccomp 0 (command text.now nest at) out.old }
    requires condition_sizes { ConditionSizes text.now sizes.old }
    ensures writes { Writes ccomp (command text.now nest at) out.old out.new result }
    ensures condition_sizes_after { ConditionSizes text.now sizes.new }
{
    let inner = nest - 1;
    let test = condition_size(text, at + 1, inner, false, sizes);
    let behind_test = &mut out[RECORD_BYTES * test.records..];
    let body = write_command(text, test.next, inner, sizes, behind_test);
    let jump = test.records + body.records;
    put_record(out, jump, JMP, back_over(jump));
    let over = body.records + 1;
    write_condition(text, at + 1, inner, false, over, test.records, sizes, out);
    PartSize {
        next: body.next,
        records: jump + 1,
    }
}

// A command's records.
#[cycle(write_command_write_if_write_sequence_write_while)]
fn write_command(
    text: &[u8],
    at: usize,
    nest: usize,
    sizes: &mut SizeCache,
    out: &mut [u8],
) -> PartSize
    requires writable { Writable ccomp 0 (command text.now nest at) out.old }
    requires condition_sizes { ConditionSizes text.now sizes.old }
    ensures writes { Writes ccomp (command text.now nest at) out.old out.new result }
    ensures condition_sizes_after { ConditionSizes text.now sizes.new }
{
    match text[at] {
        SKIP => PartSize {
            next: at + 1,
            records: 0,
        },
        ASSIGN => write_assignment(text, at, nest, out),
        SEQUENCE => write_sequence(text, at, nest, sizes, out),
        IF => write_if(text, at, nest, sizes, out),
        _ => write_while(text, at, nest, sizes, out),
    }
}

// ---- The call

// The tests of `assemble` in their order: 6, reading's, 7. Gives the text's sizes.
pub fn test(text: &[u8], out: &[u8]) -> Result<Sizes, Refusal>
    ensures { sizes_answer result
        ≡ and_then (assemble_tests text.now out.now) (λ c. gives (sizes c)) }
{
    let sizes = text_read::read(text)?;
    if out.len() < RECORD_BYTES * sizes.records {
        return Err(Reason::ShortOutput.at(0));
    }
    Ok(sizes)
}

// The records of a text that passed the tests, at the start of the output.
pub fn write(text: &[u8], out: &mut [u8])
    requires { (c : Command) × (assemble_tests text.now out.old ≡ gives c) }
    ensures { (c : Command) → assemble_tests text.now out.old ≡ gives c
        → out.new ≡ over (code_bytes assembly_kind (ccomp c)) out.old }
{
    let mut sizes = SizeCache::new();
    write_command(text, 0, text::DEEPEST, &mut sizes, out);
}

// A text's record count, D and n, and its records in the output; or a refusal, and the output as it was.
pub fn assemble(text: &[u8], out: &mut [u8]) -> Result<Sizes, Refusal>
    ensures { (sizes_answer result, out.new) ≡ assemble text.now out.old }
{
    let sizes = test(text, out)?;
    write(text, out);
    Ok(sizes)
}

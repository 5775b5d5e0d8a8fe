// The records of expressions and conditions, written into a lent buffer. Each part's writer gets the buffer from where
// the part's records are to stand. And's left side jumps over the right side, so And's writer is told how many records
// And has, and looks up how many the left side has (`sizes`). (Text, position, nesting left, sizes and buffer are
// no struct: the parts of a construct have the same nesting left, and each its own position and its own part of the
// buffer, so one would be built anew for every part.)
#![tactic(auto)]

ghost use Rattle.std.specs.Prelude.{◌≡◌, ◌+◌, ◌<◌, get_or, if◌then◌else◌};
ghost use Rattle.text.specs.Reading.{expression, condition};
ghost use Rattle.text.specs.Sizes.{condition_records};
ghost use Rattle.compile.specs.Compilation.{acomp};
ghost use Rattle.compile_sizes.specs.Parts.{Sized};
ghost use Rattle.compile_sizes.specs.Cache.{ConditionSizes};
ghost use Rattle.compile_conditions.specs.Parts.{jumping, Writable, Writes};

use compile_sizes::{PartSize, SizeCache, known_size, past_nots, value_size};
use record::{ADD, JMP, JMPGE, JMPLESS, LOAD, LOADI, RECORD_BYTES, put_record};
use text_shape::{AND, BC, PLUS, VARIABLE, constant_at};

// ---- Expressions

// A constant's or a variable's record. (The nesting left is for the contract alone.)
fn write_leaf(text: &[u8], at: usize, nest: usize, out: &mut [u8]) -> PartSize
    requires no_plus { get_or text.now at 0 ≡ 0x12 → ⊥ }
    requires writable { Writable acomp 0 (expression text.now nest at) out.old }
    ensures { Writes acomp (expression text.now nest at) out.old out.new result }
{
    if text[at] == VARIABLE {
        put_record(out, 0, LOAD, i32::from(text[at + 1]));
        return PartSize {
            next: at + 2,
            records: 1,
        };
    }
    let constant = constant_at(text, at);
    put_record(out, 0, LOADI, constant.value);
    PartSize {
        next: at + 1 + constant.width,
        records: 1,
    }
}

// An expression's records: a sum's are both sides', and ADD.
#[cycle(write_expression_write_side)]
pub fn write_expression(text: &[u8], at: usize, nest: usize, out: &mut [u8]) -> PartSize
    requires { Writable acomp 0 (expression text.now nest at) out.old }
    ensures { Writes acomp (expression text.now nest at) out.old out.new result }
{
    if text[at] != PLUS {
        return write_leaf(text, at, nest, out);
    }
    let inner = nest - 1;
    let first = write_side(text, at + 1, inner, out);
    let rest = &mut out[RECORD_BYTES * first.records..];
    let second = write_side(text, first.next, inner, rest);
    let sides = first.records + second.records;
    put_record(out, sides, ADD, 0);
    PartSize {
        next: second.next,
        records: sides + 1,
    }
}

// The same for a side of a sum or of a comparison: a constant or a variable is written here, and only a sum is a call.
#[cycle(write_expression_write_side)]
fn write_side(text: &[u8], at: usize, nest: usize, out: &mut [u8]) -> PartSize
    requires { Writable acomp 0 (expression text.now nest at) out.old }
    ensures { Writes acomp (expression text.now nest at) out.old out.new result }
{
    if text[at] == PLUS {
        return write_expression(text, at, nest, out);
    }
    write_leaf(text, at, nest, out)
}

// ---- Conditions

// The comparing jump under a flag.
fn compare(flag: bool) -> u8
    ensures { result ≡ (if flag then 0x45 else 0x46) }
{
    if flag { JMPLESS } else { JMPGE }
}

// A comparison's records: both sides, and the jump.
fn write_less(
    text: &[u8],
    at: usize,
    nest: usize,
    flag: bool,
    distance: usize,
    out: &mut [u8],
) -> PartSize
    requires first_byte { get_or text.now at 0 ≡ 0x23 }
    requires writable { Writable (jumping flag distance) distance (condition text.now nest at) out.old }
    ensures { Writes (jumping flag distance) (condition text.now nest at) out.old
        out.new result }
{
    let inner = nest - 1;
    let first = write_side(text, at + 1, inner, out);
    let rest = &mut out[RECORD_BYTES * first.records..];
    let second = write_side(text, first.next, inner, rest);
    let sides = first.records + second.records;
    put_record(out, sides, compare(flag), distance as i32);
    PartSize {
        next: second.next,
        records: sides + 1,
    }
}

// How far And's left side jumps: over the right side, and as far as And where the flag is false.
fn reach(flag: bool, right: usize, distance: usize) -> usize
    requires { right + distance < 2147483648 }
    ensures { result ≡ (if flag then right else right + distance) }
{
    if flag { right } else { right + distance }
}

// And's records: the left side's, which jump over the right side's where the left is false, and the right side's. Of
// And's `whole` records the right side has what the left side has not.
#[cycle(write_and_write_condition)]
fn write_and(
    text: &[u8],
    at: usize,
    nest: usize,
    flag: bool,
    distance: usize,
    whole: usize,
    sizes: &mut SizeCache,
    out: &mut [u8],
) -> PartSize
    requires first_byte { get_or text.now at 0 ≡ 0x22 }
    requires writable { Writable (jumping flag distance) distance (condition text.now nest at) out.old }
    requires sized { Sized (λ b. condition_records b flag) (condition text.now nest at) whole }
    requires condition_sizes { ConditionSizes text.now sizes.old }
    ensures writes { Writes (jumping flag distance) (condition text.now nest at) out.old
        out.new result }
    ensures condition_sizes_after { ConditionSizes text.now sizes.new }
{
    let inner = nest - 1;
    let left = known_size(text, at + 1, inner, sizes);
    let right = whole - left;
    let over = reach(flag, right, distance);
    let first = write_condition(text, at + 1, inner, false, over, left, sizes, out);
    let rest = &mut out[RECORD_BYTES * first.records..];
    let second = write_condition(text, first.next, inner, flag, distance, right, sizes, rest);
    PartSize {
        next: second.next,
        records: whole,
    }
}

// A condition's records under a flag, `whole` of them: they jump over `distance` records where its value is the flag.
#[cycle(write_and_write_condition)]
pub fn write_condition(
    text: &[u8],
    at: usize,
    nest: usize,
    flag: bool,
    distance: usize,
    whole: usize,
    sizes: &mut SizeCache,
    out: &mut [u8],
) -> PartSize
    requires writable { Writable (jumping flag distance) distance (condition text.now nest at) out.old }
    requires sized { Sized (λ b. condition_records b flag) (condition text.now nest at) whole }
    requires condition_sizes { ConditionSizes text.now sizes.old }
    ensures writes { Writes (jumping flag distance) (condition text.now nest at) out.old
        out.new result }
    ensures condition_sizes_after { ConditionSizes text.now sizes.new }
{
    let bare = past_nots(text, at, nest, flag);
    let here = bare.at;
    match text[here] {
        BC => {
            let records = value_size(text[here + 1] == 1, bare.flag);
            if records == 1 {
                put_record(out, 0, JMP, distance as i32);
            }
            PartSize {
                next: here + 2,
                records,
            }
        }
        AND => write_and(
            text, here, bare.nest, bare.flag, distance, whole, sizes, out,
        ),
        _ => write_less(text, here, bare.nest, bare.flag, distance, out),
    }
}

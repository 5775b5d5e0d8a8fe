// Reading the bytes of an expression or of a condition. The text and the notes of its variables are passed side by
// side: in one struct, each function would have to promise besides that the text stays as it was, and the functions of
// commands, which are in a crate above, could not be its methods.
#![tactic(auto)]

ghost use Rattle.std.specs.Prelude.{◌≡◌, List, Bool, ℕ, ◌+◌, ◌<◌, ◌≤◌, length, get_or};
ghost use Rattle.text.specs.Reading.{expression_byte, number, operand, expression, condition};
ghost use Rattle.text.specs.Reading.{plus, negation, conjunction, comparison};
ghost use Rattle.text_shape.specs.Shape.{width_of};
ghost use Rattle.text_conditions.specs.Code.{Answered, expressions, conditions, numbers, variables, values};
ghost use Rattle.text_conditions.specs.Code.{expression_parts, condition_parts, together, Room};
ghost use Rattle.text_conditions.specs.declared.PartReading.TheVariants.{Refused};

use base::{LAST_VARIABLE, Reason, VARIABLES};
use text_shape::{AND, BC, CONSTANT, LESS, NOT, ONE_BYTE_CONSTANT, PLUS, VARIABLE, constant_width};

// What reading a part comes to: why it is refused, and at which place; or its record count, its depth bound and the
// position after it. (A `Result` of two structs takes three words in place of these two: measured, reading then takes
// half as long again.)
#[derive(Clone, Copy)]
pub enum PartReading {
    Refused {
        reason: Reason,
        place: usize,
    },
    Read {
        records: u16,
        depth: u16,
        next: usize,
    },
}

impl PartReading {
    pub fn decline(reason: Reason, place: usize) -> Self
        ensures { result ≡ Refused reason place }
    {
        PartReading::Refused { reason, place }
    }
}

// ---- Two parts in a row

// Two parts as one, with `more` records besides; the second's depth is raised by `lift`.
pub fn joined(first: PartReading, second: PartReading, more: u16, lift: u16) -> PartReading
    requires { Room first second more lift }
    ensures { result ≡ together first second more lift }
{
    let PartReading::Read { records, depth, .. } = first else {
        return first;
    };
    let PartReading::Read {
        records: others,
        depth: other,
        next,
    } = second
    else {
        return second;
    };
    PartReading::Read {
        records: records + others + more,
        depth: depth.max(other + lift),
        next,
    }
}

// ---- Operands. Variables that are named are noted, by 1, in `named`, a byte for each variable. (A `bool` for each
// would ask more of callers, whose bytes may be any.)

// The constant at a position: its operand's bytes are there.
fn constant(text: &[u8], at: usize) -> PartReading
    requires { at < length text.now }
    ensures { (m : List ℕ) → Answered numbers
        (number text.now (width_of (get_or text.now at 0)) (at + 1)) result m m }
{
    let width = constant_width(text[at]);
    if text.len() - at <= width {
        return PartReading::decline(Reason::CutOff, text.len());
    }
    PartReading::Read {
        records: 1,
        depth: 1,
        next: at + 1 + width,
    }
}

// A variable's byte.
pub fn variable(text: &[u8], at: usize, named: &mut [u8; VARIABLES]) -> PartReading
    ensures { Answered variables (operand text.now 63 at) result
        named.old named.new }
{
    if text.len() <= at {
        return PartReading::decline(Reason::CutOff, text.len());
    }
    let v = text[at];
    if LAST_VARIABLE < v {
        return PartReading::decline(Reason::NoOperand, at);
    }
    named[usize::from(v)] = 1;
    PartReading::Read {
        records: 1,
        depth: 1,
        next: at + 1,
    }
}

// Bc's byte, under a flag: one record if its value equals the flag.
fn value(text: &[u8], at: usize, flag: bool) -> PartReading
    ensures { (m : List ℕ) → Answered (values flag) (operand text.now 1 at) result m m }
{
    if text.len() <= at {
        return PartReading::decline(Reason::CutOff, text.len());
    }
    let v = text[at];
    if 1 < v {
        return PartReading::decline(Reason::NoOperand, at);
    }
    PartReading::Read {
        records: u16::from((v == 1) == flag),
        depth: 0,
        next: at + 1,
    }
}

// ---- Expressions. `nest` is the nesting left; it falls from a construct to its parts. A helper is given the position
// of the construct's first byte, and the nesting left for the parts.

// The two expressions of a Plus or a Less.
#[cycle(expression_two_expressions)]
fn two_expressions(text: &[u8], at: usize, nest: usize, named: &mut [u8; VARIABLES]) -> PartReading
    requires short { length text.now ≤ 4096 }
    requires at_in_bounds { at < length text.now }
    ensures as_plus { Answered expressions (expression_parts text.now nest plus at) result
        named.old named.new }
    ensures as_less { (flag : Bool) → Answered (conditions flag)
        (condition_parts text.now nest comparison at) result named.old named.new }
{
    let first = expression(text, at + 1, nest, named);
    let PartReading::Read { next, .. } = first else {
        return first;
    };
    joined(first, expression(text, next, nest, named), 1, 1)
}

// What begins with none of the other bytes: a one-byte constant, since of 10 to 13 only 13 is left, or no expression.
// (With a test of equality here the four bytes become a table of jumps, and reading is slower.)
fn one_byte_constant(text: &[u8], at: usize) -> PartReading
    requires at_in_bounds { at < length text.now }
    requires no_constant { get_or text.now at 0 ≡ 0x10 → ⊥ }
    requires no_variable { get_or text.now at 0 ≡ 0x11 → ⊥ }
    requires no_plus { get_or text.now at 0 ≡ 0x12 → ⊥ }
    ensures { (nest : ℕ) (m : List ℕ) → Answered expressions
        (expression_parts text.now nest (expression_byte (get_or text.now at 0)) at) result m m }
{
    let byte = text[at];
    if byte < CONSTANT {
        return PartReading::decline(Reason::NoConstruct, at);
    }
    if ONE_BYTE_CONSTANT < byte {
        return PartReading::decline(Reason::NoConstruct, at);
    }
    constant(text, at)
}

#[cycle(expression_two_expressions)]
pub fn expression(text: &[u8], at: usize, nest: usize, named: &mut [u8; VARIABLES]) -> PartReading
    requires { length text.now ≤ 4096 }
    ensures { Answered expressions (expression text.now nest at) result
        named.old named.new }
{
    if text.len() <= at {
        return PartReading::decline(Reason::CutOff, text.len());
    }
    if nest == 0 {
        return PartReading::decline(Reason::TooDeep, at);
    }
    let byte = text[at];
    match byte {
        CONSTANT => constant(text, at),
        VARIABLE => variable(text, at + 1, named),
        PLUS => two_expressions(text, at, nest - 1, named),
        _ => one_byte_constant(text, at),
    }
}

// ---- Conditions, under a flag

// Not: a condition under the other flag.
#[cycle(condition_conjunction_negation)]
fn negation(
    text: &[u8],
    at: usize,
    nest: usize,
    flag: bool,
    named: &mut [u8; VARIABLES],
) -> PartReading
    requires short { length text.now ≤ 4096 }
    requires at_in_bounds { at < length text.now }
    ensures { Answered (conditions flag) (condition_parts text.now nest negation at) result
        named.old named.new }
{
    condition(text, at + 1, nest, !flag, named)
}

// And: a condition under false, and one under And's own flag.
#[cycle(condition_conjunction_negation)]
fn conjunction(
    text: &[u8],
    at: usize,
    nest: usize,
    flag: bool,
    named: &mut [u8; VARIABLES],
) -> PartReading
    requires short { length text.now ≤ 4096 }
    requires at_in_bounds { at < length text.now }
    ensures { Answered (conditions flag) (condition_parts text.now nest conjunction at) result
        named.old named.new }
{
    let first = condition(text, at + 1, nest, false, named);
    let PartReading::Read { next, .. } = first else {
        return first;
    };
    joined(first, condition(text, next, nest, flag, named), 0, 0)
}

#[cycle(condition_conjunction_negation)]
pub fn condition(
    text: &[u8],
    at: usize,
    nest: usize,
    flag: bool,
    named: &mut [u8; VARIABLES],
) -> PartReading
    requires { length text.now ≤ 4096 }
    ensures { Answered (conditions flag) (condition text.now nest at) result
        named.old named.new }
{
    if text.len() <= at {
        return PartReading::decline(Reason::CutOff, text.len());
    }
    if nest == 0 {
        return PartReading::decline(Reason::TooDeep, at);
    }
    let byte = text[at];
    match byte {
        BC => value(text, at + 1, flag),
        NOT => negation(text, at, nest - 1, flag, named),
        AND => conjunction(text, at, nest - 1, flag, named),
        LESS => two_expressions(text, at, nest - 1, named),
        _ => PartReading::decline(Reason::NoConstruct, at),
    }
}

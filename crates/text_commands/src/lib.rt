// Reading the bytes of a command. As in `text_conditions`, variables that are named are noted, and a helper is given
// the position of the construct's first byte and the nesting left for the parts.
#![tactic(auto)]

ghost use Rattle.std.specs.Prelude.{◌<◌, ◌≤◌, length};
ghost use Rattle.text.specs.Reading.{command, assignment, sequence, choice, loop};
ghost use Rattle.text_conditions.specs.Code.{Answered};
ghost use Rattle.text_commands.specs.Code.{commands, command_parts};

use base::{Reason, VARIABLES};
use text_conditions::{PartReading, condition, expression, joined, variable};
use text_shape::{ASSIGN, IF, SEQUENCE, SKIP, WHILE};

// Assign: a variable and an expression.
fn assignment(text: &[u8], at: usize, nest: usize, named: &mut [u8; VARIABLES]) -> PartReading
    requires short { length text.now ≤ 4096 }
    requires at_in_bounds { at < length text.now }
    ensures { Answered commands (command_parts text.now nest assignment at) result
        named.old named.new }
{
    let first = variable(text, at + 1, named);
    let PartReading::Read { next, .. } = first else {
        return first;
    };
    joined(first, expression(text, next, nest, named), 0, 0)
}

// Sequence: two commands.
#[cycle(choice_command_repetition_sequence)]
fn sequence(text: &[u8], at: usize, nest: usize, named: &mut [u8; VARIABLES]) -> PartReading
    requires short { length text.now ≤ 4096 }
    requires at_in_bounds { at < length text.now }
    ensures { Answered commands (command_parts text.now nest sequence at) result
        named.old named.new }
{
    let first = command(text, at + 1, nest, named);
    let PartReading::Read { next, .. } = first else {
        return first;
    };
    joined(first, command(text, next, nest, named), 0, 0)
}

// IF: a condition, two commands, and the record that passes the second.
#[cycle(choice_command_repetition_sequence)]
fn choice(text: &[u8], at: usize, nest: usize, named: &mut [u8; VARIABLES]) -> PartReading
    requires short { length text.now ≤ 4096 }
    requires at_in_bounds { at < length text.now }
    ensures { Answered commands (command_parts text.now nest choice at) result
        named.old named.new }
{
    let test = condition(text, at + 1, nest, false, named);
    let PartReading::Read { next, .. } = test else {
        return test;
    };
    let first = command(text, next, nest, named);
    let PartReading::Read { next, .. } = first else {
        return first;
    };
    let second = command(text, next, nest, named);
    joined(test, joined(first, second, 0, 0), 1, 0)
}

// WHILE: a condition, a command, and the record that goes back.
#[cycle(choice_command_repetition_sequence)]
fn repetition(text: &[u8], at: usize, nest: usize, named: &mut [u8; VARIABLES]) -> PartReading
    requires short { length text.now ≤ 4096 }
    requires at_in_bounds { at < length text.now }
    ensures { Answered commands (command_parts text.now nest loop at) result
        named.old named.new }
{
    let test = condition(text, at + 1, nest, false, named);
    let PartReading::Read { next, .. } = test else {
        return test;
    };
    joined(test, command(text, next, nest, named), 1, 0)
}

#[cycle(choice_command_repetition_sequence)]
pub fn command(text: &[u8], at: usize, nest: usize, named: &mut [u8; VARIABLES]) -> PartReading
    requires { length text.now ≤ 4096 }
    ensures { Answered commands (command text.now nest at) result
        named.old named.new }
{
    if text.len() <= at {
        return PartReading::decline(Reason::CutOff, text.len());
    }
    if nest == 0 {
        return PartReading::decline(Reason::TooDeep, at);
    }
    let byte = text[at];
    match byte {
        SKIP => PartReading::Read {
            records: 0,
            depth: 0,
            next: at + 1,
        },
        ASSIGN => assignment(text, at, nest - 1, named),
        SEQUENCE => sequence(text, at, nest - 1, named),
        IF => choice(text, at, nest - 1, named),
        WHILE => repetition(text, at, nest - 1, named),
        _ => PartReading::decline(Reason::NoConstruct, at),
    }
}

// The executor of commands and loops, as they stand in a text, by the source rules. What is lent to it is lent as to
// the executor of expressions and conditions.
#![tactic(auto)]

ghost use Rattle.std.specs.Prelude.{◌≡◌, List, ℕ, ◌<◌, ℤ, get_or};
ghost use Rattle.text.specs.Reading.{command};
ghost use Rattle.text_ends.specs.Ends.{PartEnds};
ghost use Rattle.source.specs.Rules.{state, exec};
ghost use Rattle.source.specs.Calls.{sums};
ghost use Rattle.source_values.specs.Placed.{Read, placed, up_to};
ghost use Rattle.source_commands.specs.Code.{went, storing};

use base::VARIABLES;
use source_values::{Tested, guard, right_side, test, tick};
use text_ends::part_end;
use text_shape::{ASSIGN, IF, SEQUENCE, SKIP};

// ---- Commands. One comes to the position after it, where the run goes on, or to none, where the run is spent.

// The value that stood on the stack stored: one tick.
fn stored(
    store: &mut [i32; VARIABLES],
    v: usize,
    z: i32,
    next: usize,
    left: &mut u32,
) -> Option<usize>
    requires { v < 64 }
    ensures { (mark : ℕ) → went result left.new mark store.new
        ≡ up_to next (storing v z) (state left.old 1 mark store.old) }
{
    tick(left)?;
    store[v] = z;
    Some(next)
}

// The assignment at a position: the expression, then one tick to store.
fn assignment(
    text: &[u8; text::LONGEST],
    at: usize,
    nest: usize,
    store: &mut [i32; VARIABLES],
    left: &mut u32,
    mark: &mut usize,
) -> Option<usize>
    requires first_byte { get_or text.now at 0 ≡ 0x01 }
    requires read { Read (command text.now nest at) }
    ensures { went result left.new mark.new store.new
        ≡ placed (exec sums) (command text.now nest at)
        (state left.old 0 mark.old store.old) }
{
    match right_side(text, at + 2, nest - 1, store, left) {
        Err(spent) => {
            *mark = (*mark).max(spent.high);
            None
        }
        Ok(x) => {
            *mark = (*mark).max(x.high);
            stored(store, usize::from(text[at + 1]), x.value, x.next, left)
        }
    }
}

// The command at a position, with the nesting left for it. The second command of a sequence is taken by the loop. Where
// a part ends that is not executed is looked up.
#[cycle(choice_execute_repeat)]
pub fn execute(
    text: &[u8; text::LONGEST],
    start: usize,
    deepest: usize,
    store: &mut [i32; VARIABLES],
    left: &mut u32,
    mark: &mut usize,
    ends: &[u16],
) -> Option<usize>
    requires read { Read (command text.now deepest start) }
    requires part_ends { PartEnds text.now ends.now }
    ensures { went result left.new mark.new store.new
        ≡ placed (exec sums) (command text.now deepest start)
        (state left.old 0 mark.old store.old) }
{
    let mut at = start;
    let mut nest = deepest;
    loop {
        let op = text[at];
        match op {
            SKIP => return Some(at + 1),
            ASSIGN => return assignment(text, at, nest, store, left, mark),
            SEQUENCE => {
                at = execute(text, at + 1, nest - 1, store, left, mark, ends)?;
                nest -= 1;
            }
            IF => return choice(text, at, nest, store, left, mark, ends),
            _ => return repeat(text, at, nest, store, left, mark, ends),
        }
    }
}

// The IF at a position: the condition, the branch, then one tick if the branch was the first.
#[cycle(choice_execute_repeat)]
fn choice(
    text: &[u8; text::LONGEST],
    at: usize,
    nest: usize,
    store: &mut [i32; VARIABLES],
    left: &mut u32,
    mark: &mut usize,
    ends: &[u16],
) -> Option<usize>
    requires first_byte { get_or text.now at 0 ≡ 0x03 }
    requires read { Read (command text.now nest at) }
    requires part_ends { PartEnds text.now ends.now }
    ensures { went result left.new mark.new store.new
        ≡ placed (exec sums) (command text.now nest at)
        (state left.old 0 mark.old store.old) }
{
    match test(text, at + 1, nest - 1, false, store, left, mark, ends)? {
        Tested::False(first) => {
            let second = part_end(text, first, ends);
            execute(text, second, nest - 1, store, left, mark, ends)
        }
        Tested::True(first) => {
            let second = execute(text, first, nest - 1, store, left, mark, ends)?;
            tick(left)?;
            Some(part_end(text, second, ends))
        }
    }
}

// The WHILE at a position: as long as the condition is true, the body and one tick.
#[cycle(choice_execute_repeat)]
fn repeat(
    text: &[u8; text::LONGEST],
    at: usize,
    nest: usize,
    store: &mut [i32; VARIABLES],
    left: &mut u32,
    mark: &mut usize,
    ends: &[u16],
) -> Option<usize>
    requires first_byte { get_or text.now at 0 ≡ 0x04 }
    requires read { Read (command text.now nest at) }
    requires part_ends { PartEnds text.now ends.now }
    ensures { went result left.new mark.new store.new
        ≡ placed (exec sums) (command text.now nest at)
        (state left.old 0 mark.old store.old) }
{
    loop {
        match guard(text, at + 1, nest - 1, store, left, mark, ends)? {
            Tested::False(body) => return Some(part_end(text, body, ends)),
            Tested::True(body) => {
                execute(text, body, nest - 1, store, left, mark, ends)?;
                tick(left)?;
            }
        }
    }
}

// The executor of expressions and conditions, as they stand in a text, by the source rules. The text and the store are
// lent as arrays, the ticks left and the mark as numbers: a slice would be handed on through memory at each call. (They
// are no struct: ticks and mark change while text, store and ends stay, which each function would have to promise.)
#![tactic(auto)]

ghost use Rattle.std.specs.Prelude.{◌≡◌, ◌↔◌, Bool, false, IsSome, List, ℕ, suc, ◌+◌, ◌-◌, ◌≤◌, ◌<◌, max, eqb, ℤ};
ghost use Rattle.std.specs.Prelude.{length, get_or};
ghost use Rattle.text.specs.Syntax.{Constant, Variable, Bc};
ghost use Rattle.text.specs.Reading.{expression, condition};
ghost use Rattle.text_shape.specs.Shape.{width_of, constant_width, constant_at};
ghost use Rattle.text_ends.specs.Ends.{PartEnds};
ghost use Rattle.source.specs.Rules.{state, value, truth};
ghost use Rattle.source.specs.Calls.{sums};
ghost use Rattle.base.specs.Acts.{ok};
ghost use Rattle.source_values.specs.Placed.{Read, ◌upto◌, placed, up_to, inverse};
ghost use Rattle.source_values.specs.Code.{summing, comparing, valued, Evaluates, Within, tested};

use base::VARIABLES;
use text_ends::part_end;
use text_shape::{AND, BC, CONSTANT, LESS, NOT, ONE_BYTE_CONSTANT, PLUS, VARIABLE, constant_at};

// What an expression came to: the most values that it had on the stack, the position after it, and its value. (`high`
// stands first, as in `Spent`: it is then read at one place, whichever of them an answer has.)
#[derive(Clone, Copy)]
pub struct Evaluated {
    pub high: usize,
    pub next: usize,
    pub value: i32,
}

// A run that is spent in an expression, and the most values that this had on the stack until then.
#[derive(Clone, Copy)]
pub struct Spent {
    pub high: usize,
}

// What a condition came to, with the position after it. (As a struct of a flag and a position it has bytes between
// them, which are copied too: a comparison was then half as slow again.)
#[derive(Clone, Copy)]
pub enum Tested {
    False(usize),
    True(usize),
}

impl Tested {
    fn of(value: bool, next: usize) -> Self
        ensures { (left mark : ℕ) (m : List ℤ) → tested (Some result) left mark m
            ≡ ok (value upto next) (state left 0 mark m) }
    {
        if value {
            return Tested::True(next);
        }
        Tested::False(next)
    }

    // The other truth.
    fn other(self) -> Self
        ensures { (left mark : ℕ) (m : List ℤ) → tested (Some result) left mark m
            ≡ inverse (tested (Some self) left mark m) }
    {
        match self {
            Tested::False(next) => Tested::True(next),
            Tested::True(next) => Tested::False(next),
        }
    }
}

// One tick, if one is left.
pub fn tick(left: &mut u32) -> Option<()>
    ensures some { IsSome result ↔ (0 < left.old) }
    ensures taken { left.new ≡ left.old - 1 }
{
    *left = left.checked_sub(1)?;
    Some(())
}

// ---- Expressions

// The constant at a position: one tick.
fn constant(text: &[u8; text::LONGEST], at: usize, left: &mut u32) -> Result<Evaluated, Spent>
    requires at_in_bounds { at + (1 + constant_width (get_or text.now at 0)) ≤ length text.now }
    ensures evaluates { (m : List ℤ) → Evaluates result left.old left.new m
        (up_to (at + (1 + constant_width (get_or text.now at 0)))
        (value sums
        (Constant (width_of (get_or text.now at 0)) (constant_at text.now at).value))) }
    ensures within { Within result 1 }
{
    let constant = constant_at(text, at);
    tick(left).ok_or(Spent { high: 0 })?;
    Ok(Evaluated {
        value: constant.value,
        high: 1,
        next: at + 1 + constant.width,
    })
}

// The variable at a position: one tick.
fn variable(
    text: &[u8; text::LONGEST],
    at: usize,
    store: &[i32; VARIABLES],
    left: &mut u32,
) -> Result<Evaluated, Spent>
    requires operand_inside { at + 1 < 4096 }
    requires variable_bound { get_or text.now (at + 1) 0 < 64 }
    ensures evaluates { Evaluates result left.old left.new store.now
        (up_to (at + 2) (value sums (Variable (get_or text.now (at + 1) 0)))) }
    ensures within { Within result 1 }
{
    tick(left).ok_or(Spent { high: 0 })?;
    Ok(Evaluated {
        value: store[usize::from(text[at + 1])],
        high: 1,
        next: at + 2,
    })
}

// The sum of two values that stood on the stack, where at most `high` stood: one tick. A sum past a limit is the limit.
fn summed(x: i32, y: i32, high: usize, next: usize, left: &mut u32) -> Result<Evaluated, Spent>
    requires { 1 ≤ high }
    ensures summed { (h mark : ℕ) (m : List ℤ) → valued result left.new h mark m
        ≡ up_to next (summing x y) (state left.old (suc (suc h)) (max mark (h + high)) m) }
    ensures within { Within result high }
{
    tick(left).ok_or(Spent { high })?;
    Ok(Evaluated {
        value: word::add(x, y),
        high,
        next,
    })
}

// The expression at a position, with the nesting left for it.
#[cycle(evaluate_plus)]
pub fn evaluate(
    text: &[u8; text::LONGEST],
    at: usize,
    nest: usize,
    store: &[i32; VARIABLES],
    left: &mut u32,
) -> Result<Evaluated, Spent>
    requires read { Read (expression text.now nest at) }
    ensures evaluates { Evaluates result left.old left.new store.now
        (placed (value sums) (expression text.now nest at)) }
    ensures within { Within result nest }
{
    let op = text[at];
    match op {
        CONSTANT => constant(text, at, left),
        VARIABLE => variable(text, at, store, left),
        // a Plus or a one-byte constant (one case more would make these two slower)
        _ => {
            if op < ONE_BYTE_CONSTANT {
                plus(text, at, nest, store, left)
            } else {
                constant(text, at, left)
            }
        }
    }
}

// The Plus at a position: left, right, then the sum. The right side stands one value higher.
#[cycle(evaluate_plus)]
fn plus(
    text: &[u8; text::LONGEST],
    at: usize,
    nest: usize,
    store: &[i32; VARIABLES],
    left: &mut u32,
) -> Result<Evaluated, Spent>
    requires first_byte { get_or text.now at 0 ≡ 0x12 }
    requires read { Read (expression text.now nest at) }
    ensures evaluates { Evaluates result left.old left.new store.now
        (placed (value sums) (expression text.now nest at)) }
    ensures within { Within result nest }
{
    let x = evaluate(text, at + 1, nest - 1, store, left)?;
    match evaluate(text, x.next, nest - 1, store, left) {
        Err(spent) => Err(Spent {
            high: x.high.max(spent.high + 1),
        }),
        Ok(y) => summed(x.value, y.value, x.high.max(y.high + 1), y.next, left),
    }
}

// The right side of an assignment. Most are sums, which are called from here; so `plus` stays a function of its own,
// and a leaf costs no call.
pub fn right_side(
    text: &[u8; text::LONGEST],
    at: usize,
    nest: usize,
    store: &[i32; VARIABLES],
    left: &mut u32,
) -> Result<Evaluated, Spent>
    requires read { Read (expression text.now nest at) }
    ensures { Evaluates result left.old left.new store.now
        (placed (value sums) (expression text.now nest at)) }
{
    if text[at] == PLUS {
        return plus(text, at, nest, store, left);
    }
    evaluate(text, at, nest, store, left)
}

// ---- Conditions

// Bc at a position, under a flag: one tick if its value equals the flag.
fn bc(text: &[u8; text::LONGEST], at: usize, flag: bool, left: &mut u32) -> Option<Tested>
    requires { at + 1 < 4096 }
    ensures { (mark : ℕ) (m : List ℤ) → tested result left.new mark m
        ≡ up_to (at + 2) (truth sums (Bc (eqb (get_or text.now (at + 1) 0) 1)) flag)
        (state left.old 0 mark m) }
{
    let value = text[at + 1] == 1;
    if value == flag {
        tick(left)?;
    }
    Some(Tested::of(value, at + 2))
}

// Whether the left of two values that stood on the stack is smaller: one tick.
fn compared(x: i32, y: i32, next: usize, left: &mut u32) -> Option<Tested>
    ensures { (mark : ℕ) (m : List ℤ) → tested result left.new mark m
        ≡ up_to next (comparing x y) (state left.old 2 mark m) }
{
    tick(left)?;
    Some(Tested::of(word::less(x, y), next))
}

// Less at a position: left, right, then whether left is smaller. The right side stands one value higher.
fn smaller(
    text: &[u8; text::LONGEST],
    at: usize,
    nest: usize,
    store: &[i32; VARIABLES],
    left: &mut u32,
    mark: &mut usize,
) -> Option<Tested>
    requires first_byte { get_or text.now at 0 ≡ 0x23 }
    requires read { Read (condition text.now nest at) }
    ensures { (flag : Bool) → tested result left.new mark.new store.now
        ≡ placed (λ b. truth sums b flag) (condition text.now nest at)
        (state left.old 0 mark.old store.now) }
{
    match evaluate(text, at + 1, nest - 1, store, left) {
        Err(spent) => {
            *mark = (*mark).max(spent.high);
            None
        }
        Ok(x) => match evaluate(text, x.next, nest - 1, store, left) {
            Err(spent) => {
                *mark = (*mark).max(x.high.max(spent.high + 1));
                None
            }
            Ok(y) => {
                *mark = (*mark).max(x.high.max(y.high + 1));
                compared(x.value, y.value, y.next, left)
            }
        },
    }
}

// The condition at a position, taken under a flag. And's right side is not looked at when the left is false: where it
// ends is looked up. (With `return` in each arm an answer is not put together in memory twice.)
pub fn test(
    text: &[u8; text::LONGEST],
    at: usize,
    nest: usize,
    flag: bool,
    store: &[i32; VARIABLES],
    left: &mut u32,
    mark: &mut usize,
    ends: &[u16],
) -> Option<Tested>
    requires read { Read (condition text.now nest at) }
    requires part_ends { PartEnds text.now ends.now }
    ensures { tested result left.new mark.new store.now
        ≡ placed (λ b. truth sums b flag) (condition text.now nest at)
        (state left.old 0 mark.old store.now) }
{
    let op = text[at];
    match op {
        BC => return bc(text, at, flag, left),
        NOT => {
            let part = test(text, at + 1, nest - 1, !flag, store, left, mark, ends)?;
            return Some(part.other());
        }
        AND => match test(text, at + 1, nest - 1, false, store, left, mark, ends)? {
            Tested::False(next) => return Some(Tested::False(part_end(text, next, ends))),
            Tested::True(next) => return test(text, next, nest - 1, flag, store, left, mark, ends),
        },
        _ => return smaller(text, at, nest, store, left, mark),
    }
}

// The condition of a WHILE, taken under false. Most are comparisons, which are taken here; only others are a call.
pub fn guard(
    text: &[u8; text::LONGEST],
    at: usize,
    nest: usize,
    store: &[i32; VARIABLES],
    left: &mut u32,
    mark: &mut usize,
    ends: &[u16],
) -> Option<Tested>
    requires read { Read (condition text.now nest at) }
    requires part_ends { PartEnds text.now ends.now }
    ensures { tested result left.new mark.new store.now
        ≡ placed (λ b. truth sums b false) (condition text.now nest at)
        (state left.old 0 mark.old store.now) }
{
    if text[at] == LESS {
        return smaller(text, at, nest, store, left, mark);
    }
    test(text, at, nest, false, store, left, mark, ends)
}

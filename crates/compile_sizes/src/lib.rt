// How many records an expression or a condition has, as it stands in a text. And's left side is asked for again when
// the condition is written, so measuring remembers it in a cache, `sizes`: of a condition's position the records that
// it has under false.
#![tactic(auto)]

ghost use Rattle.std.specs.Prelude.{List, ℕ, ◌+◌, ◌≤◌, ◌≡◌, false, length, get_or, if◌then◌else◌};
ghost use Rattle.std.specs.Bool.{beq};
ghost use Rattle.base.specs.Acts.{ok};
ghost use Rattle.text.specs.Syntax.{Condition};
ghost use Rattle.text.specs.Reading.{plus, expression, condition};
ghost use Rattle.text.specs.Sizes.{expression_records, condition_records};
ghost use Rattle.text_shape.specs.Shape.{constant_width};
ghost use Rattle.text_conditions.specs.Code.{expression_parts};
ghost use Rattle.compile_sizes.specs.Parts.{Countable, Counts, Sized};
ghost use Rattle.compile_sizes.specs.Nots.{Behind};
ghost use Rattle.compile_sizes.specs.Cache.{measured, looked_up, size_noted, ConditionSizes};

use text_shape::{AND, BC, CONSTANT, NOT, ONE_BYTE_CONSTANT, VARIABLE, constant_width};

// A part that was measured or written: the position after it, and how many records it has.
#[derive(Clone, Copy)]
pub struct PartSize {
    pub next: usize,
    pub records: usize,
}

// ---- The cache

// How many conditions a cache of sizes has room for.
pub const SLOTS: usize = 64;

// A condition that was measured: where it stands, and how many records it has under false.
#[derive(Clone, Copy)]
pub struct Measured {
    pub at: usize,
    pub records: usize,
}

impl Measured {
    // What a slot's number stands for: a position in its upper half and one more than the records in its lower, where 0
    // is nothing.
    fn from_slot(slot: u32) -> Option<Self>
        ensures { result ≡ measured slot }
    {
        let records = (slot as usize % 0x10000).checked_sub(1)?;
        Some(Measured {
            at: slot as usize / 0x10000,
            records,
        })
    }
}

// A cache of sizes: in each slot a condition that was measured, or nothing, as one number. (By an `Option` of two
// numbers in each it takes half as much room again, which is cleared by a C library's memset, and a pod may have none.)
// It does not hold the text that it speaks of: a cache that did would need a clause everywhere that says that its text
// stays the same.
#[derive(Clone, Copy)]
pub struct SizeCache {
    pub slots: [u32; SLOTS],
}

impl SizeCache {
    // A cache that knows nothing yet, and so nothing wrong of any text.
    pub fn new() -> SizeCache
        ensures { (text : List ℕ) → ConditionSizes text result }
    {
        SizeCache { slots: [0; SLOTS] }
    }

    // What it knows of a position.
    fn look_up(&self, at: usize) -> Option<usize>
        ensures { result ≡ looked_up self.now at }
    {
        let known = Measured::from_slot(self.slots[at % SLOTS])?;
        (known.at == at).then_some(known.records)
    }

    // Notes the size of a position in the position's slot, whatever stood there, if there is room for both.
    fn note(&mut self, at: usize, records: usize)
        ensures { self.new ≡ size_noted self.old at records }
    {
        if at < 0x10000 && records < 0xffff {
            self.slots[at % SLOTS] = (at * 0x10000 + records + 1) as u32;
        }
    }
}

// ---- Expressions

// How many records the two expressions of a Plus or a Less have, and one more; `nest` is the nesting left for them.
#[cycle(expression_size_two_sizes)]
fn two_sizes(text: &[u8], at: usize, nest: usize) -> PartSize
    requires { Countable expression_records (expression_parts text.now nest plus at) }
    ensures { Counts expression_records (expression_parts text.now nest plus at) result }
{
    let first = expression_size(text, at + 1, nest);
    let second = expression_size(text, first.next, nest);
    PartSize {
        next: second.next,
        records: first.records + second.records + 1,
    }
}

// A constant's one record, and where the constant ends.
fn constant_size(text: &[u8], at: usize) -> PartSize
    requires { at + (1 + constant_width (get_or text.now at 0)) ≤ length text.now }
    ensures next_after { result.next ≡ at + (1 + constant_width (get_or text.now at 0)) }
    ensures one_record { result.records ≡ 1 }
{
    PartSize {
        next: at + 1 + constant_width(text[at]),
        records: 1,
    }
}

// How many records an expression has.
#[cycle(expression_size_two_sizes)]
fn expression_size(text: &[u8], at: usize, nest: usize) -> PartSize
    requires { Countable expression_records (expression text.now nest at) }
    ensures { Counts expression_records (expression text.now nest at) result }
{
    let byte = text[at];
    if byte == CONSTANT {
        return constant_size(text, at);
    }
    if byte == VARIABLE {
        return PartSize {
            next: at + 2,
            records: 1,
        };
    }
    // a Plus or a one-byte constant (one case more would make the other two slower)
    if byte < ONE_BYTE_CONSTANT {
        return two_sizes(text, at, nest - 1);
    }
    constant_size(text, at)
}

// ---- Conditions

// How many records Bc has under a flag: one if its value equals the flag.
pub fn value_size(value: bool, flag: bool) -> usize
    ensures { result ≡ (if beq value flag then 1 else 0) }
{
    usize::from(value == flag)
}

// A condition without the Nots in front of it: where it stands, the nesting left for it, and the flag that it is
// under.
#[derive(Clone, Copy)]
pub struct Bare {
    pub at: usize,
    pub nest: usize,
    pub flag: bool,
}

// Passes the Nots in front of a condition: each takes its part under the other flag.
pub fn past_nots(text: &[u8], start: usize, deepest: usize, under: bool) -> Bare
    requires { (b : Condition) × ((n : ℕ) × (condition text.now deepest start ≡ ok b n)) }
    ensures behind { Behind text.now deepest under (condition text.now deepest start) result }
    ensures no_not { get_or text.now result.at 0 ≡ 0x21 → ⊥ }
{
    let mut at = start;
    let mut nest = deepest;
    let mut flag = under;
    while text[at] == NOT {
        at += 1;
        nest -= 1;
        flag = !flag;
    }
    Bare { at, nest, flag }
}

// How many records an And has under a flag: its left side's under false, and its right side's under the flag. The left
// side's are remembered.
#[cycle(both_size_condition_size)]
fn both_size(text: &[u8], at: usize, nest: usize, flag: bool, sizes: &mut SizeCache) -> PartSize
    requires first_byte { get_or text.now at 0 ≡ 0x22 }
    requires countable { Countable (λ b. condition_records b flag) (condition text.now nest at) }
    requires condition_sizes { ConditionSizes text.now sizes.old }
    ensures counts { Counts (λ b. condition_records b flag) (condition text.now nest at) result }
    ensures condition_sizes_after { ConditionSizes text.now sizes.new }
{
    let inner = nest - 1;
    let first = condition_size(text, at + 1, inner, false, sizes);
    sizes.note(at + 1, first.records);
    let second = condition_size(text, first.next, inner, flag, sizes);
    PartSize {
        next: second.next,
        records: first.records + second.records,
    }
}

// How many records a Less has, under either flag: its two sides', and one more.
fn less_size(text: &[u8], at: usize, nest: usize, flag: bool) -> PartSize
    requires first_byte { get_or text.now at 0 ≡ 0x23 }
    requires countable { Countable (λ b. condition_records b flag) (condition text.now nest at) }
    ensures { Counts (λ b. condition_records b flag) (condition text.now nest at) result }
{
    two_sizes(text, at, nest - 1)
}

// How many records a condition has under a flag.
#[cycle(both_size_condition_size)]
pub fn condition_size(
    text: &[u8],
    at: usize,
    nest: usize,
    flag: bool,
    sizes: &mut SizeCache,
) -> PartSize
    requires countable { Countable (λ b. condition_records b flag) (condition text.now nest at) }
    requires condition_sizes { ConditionSizes text.now sizes.old }
    ensures counts { Counts (λ b. condition_records b flag) (condition text.now nest at) result }
    ensures condition_sizes_after { ConditionSizes text.now sizes.new }
{
    let bare = past_nots(text, at, nest, flag);
    let here = bare.at;
    match text[here] {
        BC => PartSize {
            next: here + 2,
            records: value_size(text[here + 1] == 1, bare.flag),
        },
        AND => both_size(text, here, bare.nest, bare.flag, sizes),
        _ => less_size(text, here, bare.nest, bare.flag),
    }
}

// How many records a condition has under false: looked up where it is known, and measured where it is not.
pub fn known_size(text: &[u8], at: usize, nest: usize, sizes: &mut SizeCache) -> usize
    requires countable { Countable (λ b. condition_records b false) (condition text.now nest at) }
    requires condition_sizes { ConditionSizes text.now sizes.old }
    ensures sized { Sized (λ b. condition_records b false) (condition text.now nest at) result }
    ensures condition_sizes_after { ConditionSizes text.now sizes.new }
{
    match sizes.look_up(at) {
        Some(records) => records,
        None => condition_size(text, at, nest, false, sizes).records,
    }
}

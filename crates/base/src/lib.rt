// The forms that everything is written in: acts, answers and refusals, ends, counts and marks, calls in a row,
// previews; the types by which code answers, and copying. The forms stand in specs/.
#![tactic(auto)]

ghost use Rattle.std.specs.Prelude.{◌≡◌, ◌++◌, ◌≤◌, pos, length, drop, replicate};
ghost use Rattle.base.specs.Answers.{refused};
ghost use Rattle.base.specs.Code.{number_of, refusal_at, preview_answer};

// The variables that a text can name, numbered from 0; a store has a cell for each.
pub const VARIABLES: usize = 64;

// The greatest number of a variable.
pub const LAST_VARIABLE: u8 = 63;

// The ends of a run.
#[derive(Clone, Copy)]
pub enum End {
    Done,
    Spent,
    Short,
    Full,
    Astray,
}

// Why a call declines. Each reason has document 01's number, or that of the request that brought it.
#[derive(Clone, Copy, Debug, PartialEq, Eq)]
pub enum Reason {
    // The text ends too early.
    CutOff = 1,
    // A byte begins no construct of the kind that is due.
    NoConstruct = 2,
    // A variable above 63, or a truth value above 1.
    NoOperand = 3,
    // A construct at nesting 65.
    TooDeep = 4,
    // Bytes are left over.
    LeftOver = 5,
    // A text above 4,096 bytes.
    TooLong = 6,
    // An output that is shorter than what it is to hold.
    ShortOutput = 7,
    // A store that has not 64 cells, or a table that has not 64 bytes.
    WrongLength = 8,
    // Code that is not whole records, or above 4,096 of them.
    NotWhole = 9,
    // A record that is unknown, or has an operand that it can't have.
    NoRecord = 10,
    // D or n above 64, a memory of another length, or a stack of assembly above 64.
    WrongMemory = 11,
    // A table whose nonzero entries aren't 1 to n, once each.
    NoTable = 12,
    // Machine code to whose positions no heights can be given.
    NoHeights = 13,
    // Code and a table that don't belong together.
    NoPair = 14,
    // The state of no run of this code.
    WrongState = 15,
}

// Why a call declines, and the place that it names.
#[derive(Clone, Copy, Debug, PartialEq, Eq)]
pub struct Refusal {
    pub reason: Reason,
    pub place: usize,
}

// What a run tells: its end, its count and its mark, the most values that its stack held.
#[derive(Clone, Copy)]
pub struct Ended {
    pub end: End,
    pub count: u32,
    pub mark: usize,
}

// The answer of a preview: what the run on a copy tells, and the store that it leaves; after a refusal 64 zeros.
#[derive(Clone, Copy)]
pub struct Preview {
    pub run: Result<Ended, Refusal>,
    pub store: [i32; VARIABLES],
}

impl Reason {
    // The number by which people know the reason.
    pub fn number(self) -> u8
        ensures { result ≡ number_of self }
    {
        self as u8
    }

    // The refusal for this reason at a place.
    pub fn at(self, place: usize) -> Refusal
        ensures { result ≡ refusal_at self place }
    {
        Refusal {
            reason: self,
            place,
        }
    }
}

impl Preview {
    pub fn decline(refusal: Refusal) -> Self
        ensures { preview_answer result
            ≡ (refused (number_of refusal.reason) refusal.place, replicate 64 (pos 0)) }
    {
        Preview {
            run: Err(refusal),
            store: [0; VARIABLES],
        }
    }
}

// Items written over the start of a buffer, or over all of it; what stands behind them stays. (One by one: by
// `copy_from_slice` the pod's archive would need a C library's memmove.)
pub fn copy_over<T: Copy>(items: &[T], out: &mut [T])
    requires { length items.now ≤ length out.old }
    ensures over { out.new ≡ items.now ++ drop (length items.now) out.old }
    ensures whole { length items.now ≡ length out.old → out.new ≡ items.now }
{
    for i in 0..items.len() {
        out[i] = items[i];
    }
}

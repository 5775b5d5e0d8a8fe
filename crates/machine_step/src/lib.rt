// The stack machine by value, one step of it and its run, over memory in either layout. A step gives the next machine,
// or how the run halted. (What a step asks of a machine and of the slices, `Ready`, is no type's invariant: the slices
// are lent beside the machine.)
#![tactic(auto)]

ghost use Rattle.std.specs.Prelude.{◌≡◌, List, ◌+◌, ◌<◌, ◌≤◌, ◌^◌, ℤ, length};
ghost use Rattle.base.specs.Code.{end_of, ended};
ghost use Rattle.word.specs.Targets.{target};
ghost use Rattle.record.specs.Records.{LOADI, ADD, STORE};
ghost use Rattle.machine.specs.Calls.{tell};
ghost use Rattle.machine.specs.Code.{told_piece};
ghost use Rattle.machine_step.specs.Code.{fresh_machine, resumed_machine, stopped, moved, landed, machine_of};
ghost use Rattle.machine_step.specs.Code.{step_of, halted_result};
ghost use Rattle.machine_step.specs.Steps.{comparing, OnStack, Ready, on_lent, Steps, Passed};
ghost use Rattle.machine_step.specs.Runs.{Runs, Starts};

use base::{End, Ended};
use machine::{Piece, State};
use machine_cells::{Layout, Limits};

// The position of the record due, the number of values on the stack, the records counted, and the mark: the most values
// that there were.
#[derive(Clone, Copy)]
pub struct Machine {
    pub position: usize,
    pub size: usize,
    pub count: u32,
    pub mark: usize,
}

// The machine that a run left, and how it ended. The machine stands first, so that it lies in an `Err` where a machine
// lies in an `Ok`, and the loop keeps it in registers.
#[derive(Clone, Copy)]
pub struct Halted {
    pub machine: Machine,
    pub end: End,
}

impl Machine {
    // The most values on a stack.
    pub const STACK_CELLS: usize = 64;

    // The most variables.
    pub const VARIABLES: usize = base::VARIABLES;

    // The most cells of machine memory: the stack's, address 0, the variables'.
    pub const MEMORY_CELLS: usize = Self::STACK_CELLS + 1 + Self::VARIABLES;

    // The greatest count.
    pub const GREATEST_COUNT: u64 = 4294967295;

    // A fresh machine: position 0, stack empty, count 0, mark 0.
    pub fn fresh() -> Self
        ensures { result ≡ fresh_machine }
    {
        Self {
            position: 0,
            size: 0,
            count: 0,
            mark: 0,
        }
    }

    // The machine of a paused run.
    pub fn resumed(state: State) -> Self
        ensures { result ≡ resumed_machine state }
    {
        Self {
            position: state.position,
            size: state.size,
            count: state.count,
            mark: state.mark,
        }
    }

    // The record is counted, and nothing else changes: the run ends.
    fn stops(self, end: End) -> Result<Machine, Halted>
        requires { self.count + 1 < 2 ^ 32 }
        ensures { result ≡ stopped self end }
    {
        let machine = Machine {
            position: self.position,
            size: self.size,
            count: self.count + 1,
            mark: self.mark,
        };
        Err(Halted { end, machine })
    }

    // The record is counted, and the machine goes on at this position with this many values and this mark.
    fn moves(self, position: usize, size: usize, mark: usize) -> Result<Machine, Halted>
        requires { self.count + 1 < 2 ^ 32 }
        ensures { result ≡ moved self position size mark }
    {
        Ok(Machine {
            position,
            size,
            count: self.count + 1,
            mark,
        })
    }

    // A taken jump in code that ends at position `last`, with this many values left.
    fn jumps(self, operand: i32, size: usize, last: usize) -> Result<Machine, Halted>
        requires { (self.position < last) × (last ≤ 4096) × (self.count + 1 < 2 ^ 32) }
        ensures { result ≡ landed self size (target self.position operand last) }
    {
        match word::jump(self.position, operand, last) {
            Some(position) => self.moves(position, size, self.mark),
            None => self.stops(End::Astray),
        }
    }

    // LOADI: a number pushed. Below the mark there is room; at the mark the stack is full, or the mark rises.
    fn loadi<L: Layout>(
        self,
        stack: &mut [i32],
        limits: Limits<L>,
        z: i32,
    ) -> Result<Machine, Halted>
        requires { Ready self (L.lent limits.layout).depth limits.last stack.old }
        ensures { OnStack (L.lent limits.layout) limits.last self stack.old stack.new result (LOADI z) }
    {
        let layout = limits.layout;
        let size = self.size;
        if size < self.mark {
            layout.poke(stack, size, z);
            return self.moves(self.position + 1, size + 1, self.mark);
        }
        if layout.depth() <= size {
            return self.stops(End::Full);
        }
        layout.poke(stack, size, z);
        self.moves(self.position + 1, size + 1, size + 1)
    }

    // ADD: the sum of the two top values, or the limit that it is past, in their place. Short.
    fn add<L: Layout>(self, stack: &mut [i32], limits: Limits<L>) -> Result<Machine, Halted>
        requires { Ready self (L.lent limits.layout).depth limits.last stack.old }
        ensures { OnStack (L.lent limits.layout) limits.last self stack.old stack.new result ADD }
    {
        let layout = limits.layout;
        let size = self.size;
        if size < 2 {
            return self.stops(End::Short);
        }
        let second = layout.peek(stack, size - 2);
        let top = layout.peek(stack, size - 1);
        layout.poke(stack, size - 2, word::add(second, top));
        self.moves(self.position + 1, size - 1, self.mark)
    }

    // JMPLESS under the flag true, JMPGE under false: both top values taken off, and a jump where second < top is the
    // flag. Short, or astray.
    fn compare<L: Layout>(
        self,
        stack: &[i32],
        limits: Limits<L>,
        flag: bool,
        operand: i32,
    ) -> Result<Machine, Halted>
        requires { Ready self (L.lent limits.layout).depth limits.last stack.now }
        ensures { OnStack (L.lent limits.layout) limits.last self stack.now stack.now result (comparing flag operand) }
    {
        let layout = limits.layout;
        let size = self.size;
        if size < 2 {
            return self.stops(End::Short);
        }
        let second = layout.peek(stack, size - 2);
        let top = layout.peek(stack, size - 1);
        if word::less(second, top) == flag {
            return self.jumps(operand, size - 2, limits.last);
        }
        self.moves(self.position + 1, size - 2, self.mark)
    }

    // STORE: the top value taken off and kept under a name. Short.
    fn store<L: Layout>(
        self,
        store: &mut [i32],
        stack: &mut [i32],
        limits: Limits<L>,
        name: L::Name,
    ) -> Result<Machine, Halted>
        requires ready { Ready self (L.lent limits.layout).depth limits.last stack.old }
        requires held { (L.lent limits.layout).Holds (length store.old) (length stack.old) name }
        ensures { step_of result ((L.lent limits.layout).memory store.new stack.new)
            ≡ on_lent (L.lent limits.layout) limits.last self store.old stack.old (STORE name) }
    {
        let layout = limits.layout;
        let size = self.size;
        if size < 1 {
            return self.stops(End::Short);
        }
        let z = layout.peek(stack, size - 1);
        layout.save(store, stack, name, z);
        self.moves(self.position + 1, size - 1, self.mark)
    }

    // One step: the record at the machine's position.
    pub fn step<L: Layout>(
        self,
        code: &[u8],
        store: &mut [i32],
        stack: &mut [i32],
        limits: Limits<L>,
    ) -> Result<Machine, Halted>
        requires ready { Ready self (L.lent limits.layout).depth limits.last stack.old }
        requires passed { Passed (L.lent limits.layout) limits.last code.now store.old stack.old }
        ensures { Steps (L.lent limits.layout) limits.last self code.now store.old stack.old
            (step_of result ((L.lent limits.layout).memory store.new stack.new)) }
    {
        let layout = limits.layout;
        let at = self.position;
        match record::byte_at(code, at) - L::ABOVE {
            record::LOADI => self.loadi(stack, limits, record::operand_at(code, at)),
            record::LOAD => {
                let name = layout.named(record::name_at(code, at));
                let z = layout.load(store, stack, name);
                self.loadi(stack, limits, z)
            }
            record::ADD => self.add(stack, limits),
            record::STORE => {
                let name = layout.named(record::name_at(code, at));
                self.store(store, stack, limits, name)
            }
            record::JMP => self.jumps(record::operand_at(code, at), self.size, limits.last),
            record::JMPLESS => self.compare(stack, limits, true, record::operand_at(code, at)),
            _ => self.compare(stack, limits, false, record::operand_at(code, at)),
        }
    }

    // Steps until the run ends. It is spent at the count `limit`.
    pub fn finish<L: Layout>(
        self,
        code: &[u8],
        store: &mut [i32],
        stack: &mut [i32],
        limits: Limits<L>,
        limit: u32,
    ) -> Halted
        requires starts { Starts self (L.lent limits.layout).depth limits.last limit }
        requires passed { Passed (L.lent limits.layout) limits.last code.now store.old stack.old }
        ensures runs { Runs (L.lent limits.layout) limits.last self code.now store.old stack.old limit
            (halted_result limit result ((L.lent limits.layout).memory store.new stack.new)) }
        ensures count_le_limit { result.machine.count ≤ limit }
    {
        let mut machine = self;
        loop {
            if machine.position == limits.last {
                return Halted {
                    end: End::Done,
                    machine,
                };
            }
            if machine.count == limit {
                return Halted {
                    end: End::Spent,
                    machine,
                };
            }
            match machine.step(code, store, stack, limits) {
                Ok(next) => {
                    machine = next;
                }
                Err(halted) => {
                    return halted;
                }
            }
        }
    }
}

impl Halted {
    // What a call tells of the run: its end, its count and its mark.
    pub fn answer(self) -> Ended
        ensures { result ≡ ended self.end self.machine.count self.machine.mark }
    {
        Ended {
            end: self.end,
            count: self.machine.count,
            mark: self.machine.mark,
        }
    }

    // What a call on machine code gives of it: the state where the run is spent, else its end, its count and its mark.
    pub fn piece(self) -> Piece
        ensures { (memory : List ℤ) → told_piece result
            ≡ tell (end_of self.end) self.machine.count self.machine.mark
            (machine_of self.machine memory) }
    {
        let end = self.end;
        match end {
            End::Spent => Piece::Paused(State {
                position: self.machine.position,
                size: self.machine.size,
                count: self.machine.count,
                mark: self.machine.mark,
            }),
            _ => Piece::Ended(self.answer()),
        }
    }
}

// The memory that is lent to a run, by what names its values: a stack slot, in either layout; a variable; an address.
#![tactic(auto)]

ghost use Rattle.std.specs.Prelude.{◌≡◌, ◌<◌, ◌≤◌, ℕ, List, ℤ, length};
ghost use Rattle.machine.specs.Memories.{Assembly};
ghost use Rattle.machine_cells.specs.Lents.{Lent, LentLaws, upward, upward_laws};
ghost use Rattle.machine_cells.specs.Lents.{downward, downward_laws};

use record::{Address, Variable};

// How a run's memory lies in the two slices that are lent: a store, and a slice that has the stack's D slots.
pub trait Layout: Copy {
    // What LOAD and STORE name.
    type Name: Copy;

    // How far the first bytes of its records lie above those of assembly.
    const ABOVE: u8;

    ghost ABOVE: { ℕ };

    ghost Memory: { Type 0 };

    ghost lent: { Self → Lent Memory Self.Name };

    // D.
    fn depth(self) -> usize
        ensures { result ≡ (lent self).depth };

    // The index of stack slot i, counted from the bottom, in the slice that has the stack.
    fn index(self, i: usize) -> usize
        requires { i < (lent self).depth }
        ensures { result ≡ (lent self).index i };

    // The name that a number is.
    fn named(self, number: usize) -> Self::Name
        ensures { (k : ℕ) → result ≡ ((lent self).kind k).name number };

    // The value under a name.
    fn load(self, store: &[i32], stack: &[i32], name: Self::Name) -> i32
        requires { (lent self).Holds (length store.now) (length stack.now) name }
        ensures { result ≡ (lent self).form.load ((lent self).memory store.now stack.now) name };

    // A value put under a name.
    fn save(self, store: &mut [i32], stack: &mut [i32], name: Self::Name, z: i32)
        requires { (lent self).Holds (length store.old) (length stack.old) name }
        ensures { (lent self).memory store.new stack.new
            ≡ (lent self).form.save ((lent self).memory store.old stack.old) name z };

    ghost laws: { (layout : Self) → LentLaws ABOVE (lent layout) };

    // The value in stack slot i.
    final fn peek(self, stack: &[i32], i: usize) -> i32
        requires { (i < (lent self).depth) × ((lent self).depth ≤ length stack.now) }
        ensures { (store : List ℤ) → result ≡ (lent self).form.peek ((lent self).memory store stack.now) i }
    {
        let at = self.index(i);
        stack[at]
    }

    // A value put into stack slot i.
    final fn poke(self, stack: &mut [i32], i: usize, z: i32)
        requires { (i < (lent self).depth) × ((lent self).depth ≤ length stack.old) }
        ensures { (store : List ℤ) → (lent self).memory store stack.new
            ≡ (lent self).form.poke ((lent self).memory store stack.old) i z }
    {
        let at = self.index(i);
        stack[at] = z;
    }
}

// Assembly: the stack's slice has its slots, bottom first; the variables are the store's cells.
#[derive(Clone, Copy)]
pub struct Upward {
    pub depth: usize,
}

impl Layout for Upward {
    type Name = Variable;

    const ABOVE: u8 = 0;

    ghost ABOVE = { 0 };

    ghost Memory = { Assembly };

    ghost lent = { λ layout. upward layout.depth };

    ghost laws = { λ layout. upward_laws layout.depth };

    fn depth(self) -> usize {
        self.depth
    }

    fn index(self, i: usize) -> usize {
        i
    }

    fn named(self, number: usize) -> Variable {
        Variable(number)
    }

    fn load(self, store: &[i32], _stack: &[i32], variable: Variable) -> i32 {
        let at = variable.0;
        store[at]
    }

    fn save(self, store: &mut [i32], _stack: &mut [i32], variable: Variable, z: i32) {
        let at = variable.0;
        store[at] = z;
    }
}

// Machine code: the stack's slice has its slots from address −1 down, then address 0, then the addresses of the
// variables. The store has no part in it.
#[derive(Clone, Copy)]
pub struct Downward {
    pub depth: usize,
}

impl Layout for Downward {
    type Name = Address;

    const ABOVE: u8 = record::MLOADI - record::LOADI;

    ghost ABOVE = { 0x10 };

    ghost Memory = { List ℤ };

    ghost lent = { λ layout. downward layout.depth };

    ghost laws = { λ layout. downward_laws layout.depth };

    fn depth(self) -> usize {
        self.depth
    }

    fn index(self, i: usize) -> usize {
        self.depth - 1 - i
    }

    fn named(self, number: usize) -> Address {
        Address(number)
    }

    fn load(self, _store: &[i32], memory: &[i32], address: Address) -> i32 {
        let at = address.0;
        memory[self.depth + at]
    }

    fn save(self, _store: &mut [i32], memory: &mut [i32], address: Address, z: i32) {
        let at = address.0;
        memory[self.depth + at] = z;
    }
}

// What a run's steps share: where its memory lies, and the position at which the code ends.
#[derive(Clone, Copy)]
pub struct Limits<L: Layout> {
    pub layout: L,
    pub last: usize,
}

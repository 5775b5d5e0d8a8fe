// One position of the inspection: what its record comes to at its height, and which positions are found by it.
#![tactic(auto)]

ghost use Rattle.std.specs.Prelude.{◌≡◌, ◌+◌, ◌*◌, ◌<◌, ◌≤◌, length};
ghost use Rattle.std.specs.Bool.{then_some};
ghost use Rattle.word.specs.Numbers.{number_at};
ghost use Rattle.word.specs.Targets.{target};
ghost use Rattle.inspection_visit.specs.Records.{Known, checked_at};
ghost use Rattle.inspection_visit.specs.Positions.{SameArrays, Room, Within, Followed, Place, Visited};

// What each record takes off the stack, and what it then pushes, by its number, LOADI's 0 to JMPGE's 6. Those before
// JMP lead on, those after it either way. Tables and no enum: `numbered_effect` has the same two, by the same number.
const TAKES: [usize; 7] = [0, 0, 2, 1, 0, 2, 2];

const PUTS: [usize; 7] = [1, 1, 1, 0, 0, 0, 0];

const JMP: usize = (record::MJMP - record::MLOADI) as usize;

// What a record comes to at a height that it keeps to: the height that it leaves and where it leads, one way or two.
#[derive(Clone, Copy)]
pub enum Checked {
    Leads {
        after: usize,
        to: Option<usize>,
    },
    Forks {
        after: usize,
        jumped: Option<usize>,
        passed: Option<usize>,
    },
}

// Where the jump at a position leads.
fn jump_at(code: &[u8], last: usize, at: usize) -> Option<usize>
    requires { (at < last) × (last ≤ 4096) × (5 * last ≤ length code.now) }
    ensures { result ≡ target at (number_at code.now (5 * at + 1)) last }
{
    word::jump(at, record::operand_at(code, at), last)
}

// The record at a position, at a height; none where it takes more than the height or pushes past D.
fn check_record(code: &[u8], last: usize, depth: usize, at: usize, height: usize) -> Option<Checked>
    requires { Known code.now last at height }
    ensures { result ≡ checked_at code.now last depth at height }
{
    let number = usize::from(record::byte_at(code, at) - record::MLOADI);
    let takes = TAKES[number];
    if height < takes {
        return None;
    }
    let after = height - takes + PUTS[number];
    if depth < after {
        return None;
    }
    let next = Some(at + 1);
    if number < JMP {
        return Some(Checked::Leads { after, to: next });
    }
    let jump = jump_at(code, last, at);
    if number == JMP {
        return Some(Checked::Leads { after, to: jump });
    }
    Some(Checked::Forks {
        after,
        jumped: jump,
        passed: next,
    })
}

// The positions that are found, on lent arrays. A position that was found has a label, one more than its height; 0 is
// no label (an `Option` for each would take twice the room). `order` lists the positions in the order in which they
// were found, and `found` is how many there are.
#[derive(Drop)]
pub struct Positions<'a> {
    pub labels: &'a mut [u8],
    pub order: &'a mut [u16],
    pub found: usize,
}

impl<'a> Positions<'a> {
    // A successor: found now and labelled, or found before with the same label; false where no heights can be given.
    fn follow(&mut self, target: Option<usize>, label: u8) -> bool
        requires room { Room self.old.labels.now self.old.order.now self.old.found }
        requires within { Within (length self.old.labels.now) target }
        ensures followed { Followed self.old.labels.now self.old.order.now self.old.found label target
            (then_some result self.new.found) self.new.labels.now self.new.order.now }
        ensures same_arrays { SameArrays self.old self.new }
    {
        match target {
            None => false,
            Some(to) => {
                let old = self.labels[to];
                if old == label {
                    return true;
                }
                if old != 0 {
                    return false;
                }
                self.labels[to] = label;
                self.order[self.found] = to as u16;
                self.found += 1;
                true
            }
        }
    }

    // A position that was found: the end has height 0, a record keeps to its height and its successors are followed.
    // False where no heights can be given.
    pub fn visit(&mut self, code: &[u8], last: usize, depth: usize, at: usize) -> bool
        requires { Place code.now last depth at self.old.labels.now self.old.order.now self.old.found }
        ensures visited { Visited code.now last depth at self.old.labels.now self.old.order.now self.old.found
            (then_some result self.new.found) self.new.labels.now self.new.order.now }
        ensures same_arrays { SameArrays self.old self.new }
    {
        let label = usize::from(self.labels[at]);
        if at == last {
            return label == 1;
        }
        let Some(checked) = check_record(code, last, depth, at, label - 1) else {
            return false;
        };
        match checked {
            Checked::Leads { after, to } => self.follow(to, (after + 1) as u8),
            Checked::Forks {
                after,
                jumped,
                passed,
            } => {
                let label = (after + 1) as u8;
                self.follow(jumped, label) && self.follow(passed, label)
            }
        }
    }
}

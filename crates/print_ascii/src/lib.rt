// Bytes, words and numbers in ASCII, printed one after the other on a page, which is a lent buffer. (Not by `Display`:
// a writer may fail, which these cannot, and says nothing of the room that is left.)
#![tactic(auto)]

ghost use Rattle.std.specs.Prelude.{[], ◌∷◌, ◌≡◌, ◌+◌, ◌≤◌, length};
ghost use Rattle.print.specs.Numbers.{decimal_by, decimal, signed};
ghost use Rattle.print_ascii.specs.Puts.{Prints};

// The most digits of a number of 32 bits.
const MOST_DIGITS: usize = 10;

// A lent buffer, and the place in it where the next byte goes. Each method puts one thing there, and the place is then
// the one after it; every other byte stays as it was (Puts). It asks for room for the longest such thing.
#[derive(Drop)]
pub struct Page<'a> {
    pub out: &'a mut [u8],
    pub at: usize,
}

impl<'a> Page<'a> {
    pub fn put_byte(&mut self, byte: u8)
        requires { self.old.at + 1 ≤ length self.old.out.now }
        ensures { Prints (byte ∷ []) self.old self.new }
    {
        self.out[self.at] = byte;
        self.at += 1;
    }

    pub fn put_word(&mut self, word: &[u8])
        requires { self.old.at + length word.now ≤ length self.old.out.now }
        ensures { Prints word.now self.old self.new }
    {
        for byte in word {
            self.put_byte(*byte);
        }
    }

    // n in decimal, by at most so many digits. Each call has one digit less left.
    fn put_digits(&mut self, most: usize, n: usize)
        requires { self.old.at + most ≤ length self.old.out.now }
        ensures { Prints (decimal_by most n) self.old self.new }
    {
        if most == 0 {
            return;
        }
        if n >= 10 {
            self.put_digits(most - 1, n / 10);
        }
        self.put_byte(b'0' + (n % 10) as u8);
    }

    pub fn put_decimal(&mut self, n: usize)
        requires { self.old.at + 10 ≤ length self.old.out.now }
        ensures { Prints (decimal n) self.old self.new }
    {
        self.put_digits(MOST_DIGITS, n);
    }

    // A minus before a number below 0, and its size.
    pub fn put_signed(&mut self, z: i32)
        requires { self.old.at + 11 ≤ length self.old.out.now }
        ensures { Prints (signed z) self.old self.new }
    {
        if z < 0 {
            self.put_byte(b'-');
        }
        self.put_decimal(z.unsigned_abs() as usize);
    }
}

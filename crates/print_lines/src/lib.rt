// What the printing program prints but for the record lines, on a page. Each function puts one line, or a part of one;
// it asks for room for the longest such line.
#![tactic(auto)]

ghost use Rattle.std.specs.Prelude.{◌≡◌, ◌+◌, ◌<◌, ◌≤◌, length};
ghost use Rattle.base.specs.Code.{number_of, end_of};
ghost use Rattle.print_ascii.specs.Puts.{Prints};
ghost use Rattle.print.specs.Printing.{first_line, end_text, run_line, value_line, value_lines, refusal_line};

use base::{End, Ended, Refusal, VARIABLES};
use print_ascii::Page;
use text::Sizes;

// Enough for what is printed for any text.
pub const LONGEST_OUTPUT: usize = 200000;

// ---- The first line: record count, D, n

pub fn put_first_line(page: &mut Page, sizes: Sizes)
    requires { page.old.at + 53 ≤ length page.old.out.now }
    ensures { Prints (first_line sizes) page.old page.new }
{
    page.put_word(b"records ");
    page.put_decimal(sizes.records);
    page.put_word(b" stack ");
    page.put_decimal(sizes.depth);
    page.put_word(b" cells ");
    page.put_decimal(sizes.cells);
    page.put_byte(b'\n');
}

// ---- The run's end and count

// The word for an end; a text's run is done or spent.
fn put_end(page: &mut Page, end: End)
    requires { page.old.at + 5 ≤ length page.old.out.now }
    ensures { Prints (end_text (end_of end)) page.old page.new }
{
    match end {
        End::Done => page.put_word(b"done"),
        End::Spent => page.put_word(b"spent"),
        End::Short | End::Full | End::Astray => {}
    }
}

pub fn put_run_line(page: &mut Page, run: Ended)
    requires { page.old.at + 21 ≤ length page.old.out.now }
    ensures { Prints (run_line (end_of run.end) run.count) page.old page.new }
{
    page.put_word(b"run ");
    put_end(page, run.end);
    page.put_byte(b' ');
    page.put_decimal(run.count as usize);
    page.put_byte(b'\n');
}

// ---- The named variables and their values

// The line of variable v, if it is named: a variable without an address is not. At most 2 + 1 + 11 + 1 bytes.
fn put_value_line(page: &mut Page, v: usize, address: u8, value: i32)
    requires { (page.old.at + 15 ≤ length page.old.out.now) × (v < 100) }
    ensures { Prints (value_line v address value) page.old page.new }
{
    if address == 0 {
        return;
    }
    page.put_decimal(v);
    page.put_byte(b' ');
    page.put_signed(value);
    page.put_byte(b'\n');
}

pub fn put_value_lines(page: &mut Page, table: &[u8], store: &[i32])
    requires room { page.old.at + 960 ≤ length page.old.out.now }
    requires variables { (64 ≤ length table.now) × (64 ≤ length store.now) }
    ensures { Prints (value_lines table.now store.now 0 64) page.old page.new }
{
    for v in 0..VARIABLES {
        put_value_line(page, v, table[v], store[v]);
    }
}

// ---- A refusal

pub fn put_refusal(page: &mut Page, refusal: Refusal)
    requires { page.old.at + 33 ≤ length page.old.out.now }
    ensures { Prints (refusal_line (number_of refusal.reason) refusal.place) page.old page.new }
{
    page.put_word(b"refused ");
    page.put_decimal(usize::from(refusal.reason.number()));
    page.put_word(b" at ");
    page.put_decimal(refusal.place);
    page.put_byte(b'\n');
}

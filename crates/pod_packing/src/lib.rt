// The answers of calls packed into one number, as Packing says.
#![tactic(auto)]

ghost use Rattle.std.specs.Prelude.{◌≡◌, ◌%◌};
ghost use Rattle.base.specs.Code.{number_of, end_of, run_answer, count_answer};
ghost use Rattle.text.specs.Code.{sizes_answer};
ghost use Rattle.pod_packing.specs.Packing.{packed_refusal, packed_sizes, packed_count, end_number, packed_run};

use base::{End, Ended, Refusal};
use text::Sizes;

fn pack_refusal(refusal: Refusal) -> u64
    ensures { result ≡ packed_refusal (number_of refusal.reason) refusal.place }
{
    u64::from(refusal.reason.number()) + 256 * (refusal.place as u64 & 0xffff_ffff)
}

pub fn pack_sizes(sizes: Result<Sizes, Refusal>) -> u64
    ensures { result ≡ packed_sizes (sizes_answer sizes) }
{
    sizes.map_or_else(pack_refusal, |sizes| {
        256 * (sizes.records as u64 & 0xffff)
            + 16777216 * (sizes.depth as u64 & 0xff)
            + 4294967296 * (sizes.cells as u64 & 0xff)
    })
}

pub fn pack_count(count: Result<usize, Refusal>) -> u64
    ensures { result ≡ packed_count (count_answer count) }
{
    count.map_or_else(pack_refusal, |n| 256 * (n as u64 & 0xffff))
}

// The number of an end, which only this packing has: `as u64` would give other numbers, since no end has 2 any more.
fn end_number(end: End) -> u64
    ensures { result ≡ end_number (end_of end) }
{
    match end {
        End::Done => 0,
        End::Spent => 1,
        End::Short => 3,
        End::Full => 4,
        End::Astray => 5,
    }
}

pub fn pack_run(run: Result<Ended, Refusal>) -> u64
    ensures { result ≡ packed_run (run_answer run) }
{
    run.map_or_else(pack_refusal, |ended| {
        256 * end_number(ended.end)
            + 65536 * u64::from(ended.count)
            + 281474976710656 * (ended.mark as u64 & 0xff)
    })
}

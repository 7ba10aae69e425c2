//! How many programs passed and failed.

ghost use Rattle.std.specs.Prelude.{◌≡◌, ◌≤◌, ◌<◌, ◌-◌, ◌^◌, length, map};
ghost use Rattle.test_and_bench.specs.Trials.{counted as counted_if, failed_of, judged, passed_of};
ghost use Rattle.test_and_bench.specs.Trials.{tested_status};

use crate::trial::Tested;

/// Returns how many of these programs passed.
pub(crate) fn passed_in(tested: &[Tested]) -> usize
    ensures number { result ≡ passed_of (map judged tested.now) }
    ensures few { result ≤ length tested.now }
{
    let mut passed = 0;
    for one in tested {
        passed = counted(passed, one.verdict.passes);
    }
    passed
}

/// Returns one more, if it counts.
fn counted(number: usize, counts: bool) -> usize
    requires { number < 2 ^ 64 - 1 }
    ensures { result ≡ counted_if counts number }
{
    if counts { number + 1 } else { number }
}

/// Returns how many of these programs failed.
pub(crate) fn failed_in(tested: &[Tested]) -> usize
    ensures { result ≡ failed_of (map judged tested.now) }
{
    tested.len() - passed_in(tested)
}

/// Returns the exit status: 1 if one failed.
pub(crate) fn status_of(tested: &[Tested]) -> u8
    ensures { result ≡ tested_status (failed_of (map judged tested.now)) }
{
    if failed_in(tested) == 0 { 0 } else { 1 }
}

// Runs the partial sort on a list of cases from standard input and prints how many of them it answers as the source does.
// A case is L and K (4 bytes each), L values (2 bytes each), then the K indices (4 bytes each) and the L values (2 bytes each) that the source leaves; all little-endian.
#![tactic(auto)]

ghost use Rattle.std.specs.Prelude.{◌≡◌, ◌+◌, ◌*◌};
ghost use Rattle.cases_io.specs.Little.{u32_at};

use cases_io::{load, over_list, replay, same, u32_at};
use silk_sort::silk_insertion_sort_decreasing_int16;
use std::io;

// Whether the sort answers the case, of l values and k places, as the source does. No case has more than 72 values.
fn agrees(case: &[u8]) -> bool {
    let l = u32_at(case, 0);
    let k = u32_at(case, 4);
    if k == 0 {
        return false;
    }
    if k > l {
        return false;
    }
    if l > 72 {
        return false;
    }
    let indices = 8 + 2 * l;
    let after = indices + 4 * k;
    let mut a = [0i16; 72];
    let mut idx = [0usize; 72];
    load(case, 8, &mut a);
    silk_insertion_sort_decreasing_int16(&mut a, &mut idx, l, k);
    same(case, indices, &idx[..k]) && same(case, after, &a[..l])
}

// The bytes of a case of l values and k places.
fn size(case: &[u8]) -> usize
    ensures { result ≡ 8 + 4 * u32_at case.now 0 + 4 * u32_at case.now 4 }
{
    8 + 4 * u32_at(case, 0) + 4 * u32_at(case, 4)
}

fn main(rt: HostRuntime) -> io::Result<()> {
    let name = b"silk_insertion_sort_decreasing_int16";
    over_list(&mut rt.stdin(), |list| {
        replay(
            &mut rt.stdout(),
            name,
            list,
            size,
            |case| Some(agrees(case)),
        )
    })
}

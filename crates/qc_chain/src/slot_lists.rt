//! Lists by the numbers of slots.

ghost use Rattle.std.specs.Prelude.{◌≡◌, ℕ, ◌+◌, ◌<◌, ◌≤◌, ◌^◌, List, [], ◌++◌, length, replicate, None, Option, IfOk, ◌==◌};
ghost use Rattle.qc_chain.specs.Counts.{bit, count};
ghost use Rattle.qc_chain.specs.Linked.{nodes_of};
ghost use Rattle.qc_chain.specs.Filed.{AreFree, bucket_of};

use crate::lists::Lists;
use qc_types::NoMemory;
use std::alloc::Global;

/// An odd number whose multiples spread over all numbers.
const SPREAD: u64 = 11400714819323198485;

/// A mask for the numbers of so many lists at least.
pub fn mask_for(room: u32) -> u32
    requires { room ≤ 2 ^ 28 }
    ensures { result < 2 ^ 29 }
{
    room.max(1).next_power_of_two() - 1
}

/// The list of a number, from 1 up to the mask and 1.
pub fn bucket(mask: u32, number: u64) -> u32
    requires { mask < 2 ^ 29 }
    ensures { result ≡ bucket_of mask number }
{
    let spread = (number.wrapping_mul(SPREAD) >> 32) as u32;
    1 + (spread & mask)
}

/// So many lists, with all numbers of slots in the first. It costs their number. Fails where memory lacks.
pub fn all_free(alloc: Global, lists: u32, slots: u32) -> Result<Lists, NoMemory>
    requires some { 0 < lists }
    requires fit { lists + slots < 2 ^ 32 }
    ensures { IfOk result (λ l. AreFree lists slots l) }
{
    let mut free = Lists::new(alloc, lists, slots)?;
    for slot in 0..slots {
        free.put_last(slot, 0);
    }
    Ok(free)
}

/// So many slots with nothing in them. It costs their number. Fails where memory lacks.
pub fn empty_slots<T: Drop>(alloc: Global, slots: u32) -> Result<Vec<Option<T>>, NoMemory>
    ensures { IfOk result (λ v. v.items ≡ replicate slots None) }
{
    let mut empty = Vec::with_capacity(alloc, slots as usize)?;
    for _count in 0..slots {
        empty.push_reserved(None);
    }
    Ok(empty)
}

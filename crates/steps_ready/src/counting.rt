//! How many there are of what is numbered.
ghost use Rattle.std.specs.Prelude.{◌≡◌, ℕ, ◌<◌, ◌≤◌, ◌^◌, All, IfOk, OnOk};

use std::alloc::AllocError;

/// A count of what is numbered by 32 bits; a greater one is want of memory.
///
/// Source: this project's own.
pub fn numbered(count: usize) -> Result<u32, AllocError>
    ensures few { OnOk result (count < 2 ^ 32) }
    ensures same { IfOk result (λ numbered. numbered ≡ count) }
{
    let Ok(numbered) = u32::try_from(count) else {
        return Err(AllocError);
    };
    Ok(numbered)
}

/// How many base partitions there are, by those of the classes: one more than the greatest number.
///
/// Source: this project's own.
pub fn count_partitions(partitions: &[u32]) -> usize
    ensures below { All (λ partition. partition < result) partitions.now }
    ensures least { (count : ℕ) → All (λ partition. partition < count) partitions.now → result ≤ count }
    ensures few { result ≤ 2 ^ 32 }
{
    let mut count = 0;
    for partition in partitions {
        count = count.max(*partition as usize + 1);
    }
    count
}

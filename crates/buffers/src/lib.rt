// Zeros, and a copy to the front of a part that a caller lends, for any type of element that is copied; what a buffer holds then is said in
// specs/Splice.
#![tactic(auto)]

ghost use Rattle.std.specs.Prelude.{◌≡◌, ◌≤◌, length};
ghost use Rattle.buffers.specs.Facts.{BufferFacts};
ghost use Rattle.buffers.specs.Splice.{over, zeroed};

// Zeros everywhere.
#[tactic(auto, unfolding(crate::specs::Splice::zeroed))]
pub fn clear(numbers: &mut [i32])
    ensures { numbers.new ≡ zeroed numbers.old }
{
    numbers.fill(0);
}

// One loop, which the compiler turns into the stores where the number of items is known: by `copy_from_slice` the archives for C need memmove, and
// README promises that they need memset alone; over `zip` a proof loses what `iter_mut` lent.
#[tactic(auto, using(crate::proofs::Anchors::buffer_facts, crate::proofs::CopyLaws::copying))]
pub fn put<T: Copy>(items: &[T], part: &mut [T])
    requires { length items.now ≤ length part.old }
    ensures part_after { part.new ≡ over items.now part.old }
    ensures buffer_facts { BufferFacts }
{
    for (i, item) in items.iter().enumerate() {
        part[i] = *item;
    }
}

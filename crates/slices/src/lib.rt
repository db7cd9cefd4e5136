//! Slices that a caller lends: writing to one, and what of it stays.
#![tactic(auto)]

ghost use Rattle.std.specs.Prelude.{◌≡◌, ◌+◌, ◌<◌, ◌≤◌, length, slice_set};
ghost use Rattle.slices.specs.Lent.{Filled};

// Writes one element. A function of its own, so that it serves elements of every type alike.
pub fn put<T: Copy>(xs: &mut [T], at: usize, x: T)
    requires { at < length xs.old }
    ensures { xs.new ≡ slice_set xs.old at x }
{
    xs[at] = x;
}

// Writes the same into `count` elements, from one on.
pub fn fill<T: Copy>(xs: &mut [T], from: usize, count: usize, x: T)
    requires { from + count ≤ length xs.old }
    ensures { Filled from count x xs.old xs.new }
{
    for k in 0..count {
        xs[from + k] = x;
    }
}

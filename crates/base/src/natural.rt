// Numbers as they are counted.
ghost use Rattle.std.specs.Prelude.{◌≡◌, ◌-◌, min};

// The lesser of two.
pub fn min(a: usize, b: usize) -> usize
    ensures { result ≡ min a b }
{
    a.min(b)
}

// a without b, and 0 where b is more.
pub fn saturating_sub(a: usize, b: usize) -> usize
    ensures { result ≡ a - b }
{
    a.saturating_sub(b)
}

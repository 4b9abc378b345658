ghost use Rattle.std.specs.Prelude.{◌≡◌};
ghost use Rattle.label_base.specs.Bounded.{greater};

/// The greater of two numbers, where there are two, and else the one that there is.
pub fn greater(a: Option<usize>, b: Option<usize>) -> Option<usize>
    ensures { result ≡ greater a b }
{
    a.max(b)
}

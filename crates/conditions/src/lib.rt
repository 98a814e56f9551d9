// Tests on truth values and ranges, which all crates share.
#![tactic(auto)]

ghost use Rattle.std.specs.Prelude.{◌≡◌};
ghost use Rattle.conditions.specs.Both.{both};
ghost use Rattle.conditions.specs.Between.{between};

// Whether two tests pass.
pub fn both(a: bool, b: bool) -> bool
    ensures { result ≡ both a b }
{
    a && b
}

// Whether low <= x <= high.
pub fn between(low: usize, high: usize, x: usize) -> bool
    ensures { result ≡ between low high x }
{
    (low..=high).contains(&x)
}

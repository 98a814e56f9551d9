// The starred examples (docs/RULES.md, section 19), proved as one statement over one list: specs/Starred and proofs/StarredLaws.
#![tactic(auto)]

ghost use Rattle.std.specs.Prelude.{◌≡◌, length};
ghost use Rattle.conditions.specs.All.{All, AllMeans};
ghost use Rattle.starred.specs.Starred.{StarredHolds, starred};

// How many starred examples there are. Each of them holds, and this is what `All` says.
pub fn count() -> usize
    ensures value { result ≡ length starred }
    ensures all { All StarredHolds starred × AllMeans }
{
    20
}

// A label that moves by one, where a number below it goes or comes.
ghost use Rattle.std.specs.Prelude.{◌≡◌, ◌≤◌};
ghost use Rattle.basics.specs.Limits.{places};
ghost use Rattle.derangements.specs.Cycles.{lowered, raised};

// A label above c moves down.
#[tactic(auto, unfolding(crate::specs::Cycles::lowered))]
pub fn lowered(c: u8, label: u8) -> u8
    ensures { result ≡ lowered c label }
{
    if c < label { label - 1 } else { label }
}

// From c on, labels move up.
// Ranks of permutations raise letters too, by a definition of their own, which keeps its meaning: one function for both would be no shorter.
#[tactic(auto, unfolding(crate::specs::Cycles::raised))]
pub fn raised(c: u8, label: u8) -> u8
    requires { label ≤ places }
    ensures { result ≡ raised c label }
{
    if c <= label { label + 1 } else { label }
}

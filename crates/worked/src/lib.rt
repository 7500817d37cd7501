// The worked examples of docs/MACHINE.md, checked against the definitions themselves.
#![tactic(auto)]

ghost use Rattle.std.specs.Prelude.{◌≡◌, length};
ghost use Rattle.std.specs.List.{AllByRecursion};
ghost use Rattle.worked.specs.Examples.{examples, Holds};

// How many examples there are; every one of them holds.
pub fn worked_examples() -> usize
    ensures count { result ≡ length examples }
    ensures hold { AllByRecursion Holds examples }
{
    8
}

#[cfg(test)]
mod jobs;
#[cfg(test)]
mod tests;

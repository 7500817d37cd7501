// The check of a patch text, exported to C: the library's own function, with its clauses.
#![tactic(auto)]

ghost use Rattle.patch.specs.Verdicts.{Verdict};

// 0 for a text that is accepted, else the number of its refusal times 65,536 plus its line. C passes a pointer and a length.
#[unsafe(no_mangle)]
pub extern "C" fn patch_check(text: &[u8]) -> u32
    ensures { Verdict text.now result }
{
    patch::patch_check(text)
}

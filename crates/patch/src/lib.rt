// The check of a patch text as one number; the crate `patch_c` exports it to C.
#![tactic(auto)]

ghost use Rattle.std.specs.Prelude.{◌≡◌, ◌+◌, ◌*◌};
ghost use Rattle.patch.specs.Verdicts.{Verdict, packed};

use reader::read::parsed;
use unit::refusal::TextFault;

// 0 for a text that is accepted, else the number of its refusal times 65,536 plus its line.
pub fn patch_check(text: &[u8]) -> u32
    ensures { Verdict text.now result }
{
    // no plainer by `map_or_else`, which names the fault first
    match parsed(text) {
        Ok(_) => 0,
        Err(fault) => pack(fault),
    }
}

fn pack(fault: TextFault) -> u32
    ensures { result ≡ packed fault.refusal fault.line }
{
    u32::from(u8::from(fault.refusal)) * 65536 + u32::from(fault.line)
}

#[cfg(test)]
mod tests;

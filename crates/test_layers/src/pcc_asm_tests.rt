//! Flaws of sources in words. What is assembled, and which flaw is found, is in rows of `pcc`
//! (test_commands).

use alpha_words::BadWord;
use pcc_asm::{AsmFault, AsmFlaw};
use std::alloc::Global;
use std::process::Abort;
use std::test::Fail;

/// Each kind in words, with its name.
static NAMES: [(AsmFlaw, &str, &str); 4] = [
    (
        AsmFlaw::NoLabel(7),
        "NoLabel",
        "in line 7, a label that stands nowhere",
    ),
    (
        AsmFlaw::Word(7, BadWord::LoadToZero),
        "LoadToZero",
        "in line 7, a load into register 31",
    ),
    (
        AsmFlaw::Target(7),
        "Target",
        "in line 7, a branch outside the code",
    ),
    (
        AsmFlaw::FallsOff(7),
        "FallsOff",
        "in line 7, a last instruction after which the code goes on",
    ),
];

fn test_name(
    rt: &impl Abort,
    alloc: Global,
    flaw: AsmFlaw,
    name: &str,
    words: &str,
) -> Result<(), Fail> {
    let fault = AsmFault::At(flaw);
    assert!(rt; flaw.line() == 7 && flaw.name() == name, "{name}");
    assert!(rt; format!(in alloc; "{fault}")?.as_str() == words, "{name}");
    Ok(())
}

#[test]
fn flaws_in_words(rt: HostRuntime) -> Result<(), Fail> {
    for &(flaw, name, words) in NAMES.iter() {
        test_name(&rt, rt.alloc(), flaw, name, words)?;
    }
    Ok(())
}

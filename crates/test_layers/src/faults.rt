//! Faults in words. Their names are in rows of `check` and `prove` (test_commands: `containers.rows`,
//! `check.rows`, `prove.rows`).

use alpha_cfg::CodeFlaw;
use bounds_prover::{Measure, ProveFault, ProveFlaw};
use pcc_gate::{MAX_WEIGHT, Refusal};
use proof_container::{Flaw, Head, Malformed};
use std::alloc::{AllocError, Global};
use std::test::Fail;

/// A refusal by each clause, and what else keeps a container from getting a proof.
const IN_WORDS: [(ProveFlaw, &str); 16] = [
    (
        ProveFlaw::Refused(Refusal::TooLong(4_194_305)),
        "refused: 4194305 bytes are too many",
    ),
    (
        ProveFlaw::Refused(Refusal::Malformed(16, Flaw::Cut)),
        "refused: no container: at offset 16, a field is cut short",
    ),
    (
        ProveFlaw::Refused(Refusal::OtherPolicy(Head::Number(4))),
        "refused: for the policy Number(4)",
    ),
    (
        ProveFlaw::Refused(Refusal::OtherPolicy(Head::Number(1))),
        "refused: for the policy Number(1)",
    ),
    (
        ProveFlaw::Refused(Refusal::BadCode(CodeFlaw::Target(2))),
        "refused: no code: index 2 branches outside the code",
    ),
    (
        ProveFlaw::Refused(Refusal::Height(4_097)),
        "refused: a term is 4097 high",
    ),
    (
        ProveFlaw::Refused(Refusal::InvNotForm(0)),
        "refused: invariant 0 is no formula",
    ),
    (
        ProveFlaw::Refused(Refusal::LemmaNotForm(2)),
        "refused: the formula of lemma 2 is none",
    ),
    (
        ProveFlaw::Refused(Refusal::Uncut(1)),
        "refused: index 1 is on a cycle without an annotated index",
    ),
    (
        ProveFlaw::Refused(Refusal::UnfoldLimit(65_537)),
        "refused: the unfolded length is 65537",
    ),
    (
        ProveFlaw::Refused(Refusal::NoProof),
        "refused: there is no proof",
    ),
    (
        ProveFlaw::Refused(Refusal::ProofWeight(MAX_WEIGHT + 1)),
        "refused: the proof weighs 1048577",
    ),
    (
        ProveFlaw::Refused(Refusal::LemmaNotProof(3)),
        "refused: the proof of lemma 3 isn't one of its formula",
    ),
    (
        ProveFlaw::Refused(Refusal::NotProof),
        "refused: the proof isn't one of the verification condition",
    ),
    (ProveFlaw::NotEasy(2), "part 2 of the condition isn't easy"),
    (
        ProveFlaw::TooBig(Measure::Height, 4_100),
        "too big: Height 4100",
    ),
];

/// Whether the fault's words are these.
fn has_words(alloc: Global, fault: ProveFault, words: &str) -> Result<bool, AllocError> {
    Ok(format!(in alloc; "{fault}")?.as_str() == words)
}

/// Whether the words of what is no container are these.
fn is_malformed(alloc: Global, fault: Malformed, words: &str) -> Result<bool, AllocError> {
    Ok(format!(in alloc; "{fault}")?.as_str() == words)
}

#[test]
fn faults_in_words(rt: HostRuntime) -> Result<(), Fail> {
    let a = rt.alloc();
    for (flaw, words) in IN_WORDS.iter() {
        assert!(rt; has_words(a, ProveFault::At(*flaw), words)?, "{words}");
    }
    assert!(rt; has_words(a, ProveFault::Memory, "out of memory")?);
    let fault = Malformed::At(24, Flaw::EntryKind);
    assert!(rt; is_malformed(a, fault, "at offset 24, the entry is of no kind")?);
    assert!(rt; is_malformed(a, Malformed::Memory, "out of memory")?);
    Ok(())
}

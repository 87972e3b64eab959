//! Parts of the testing machine. What its steps do is in rows of `ref` and `packet` (test_commands)
//! and in rows of runs (test_tables: `runs.tsv`).

use alpha_words::{Reg, Rhs};
use reference_machine::{Agent, QUADWORDS, fill, read_reg, rhs_word, write_reg};
use std::test::Fail;

#[test]
fn a_new_agent_holds_nothing(rt: HostRuntime) -> Result<(), Fail> {
    let agent = Agent::new(rt.alloc())?;
    assert!(rt; agent.index() == 0);
    assert!(rt; agent.result() == 0);
    assert!(rt; agent.sum() == 0);
    Ok(())
}

/// Register 31 is 0, and keeps nothing that is written; register 30 can be written here alone, since
/// no instruction may.
#[test]
fn registers_keep_what_is_written(rt: HostRuntime) {
    let mut regs = [0; 31];
    write_reg(&mut regs, Reg::new(30), 7);
    write_reg(&mut regs, Reg::new(31), 9);
    assert!(rt; read_reg(&regs, Reg::new(30)) == 7);
    assert!(rt; read_reg(&regs, Reg::new(31)) == 0);
    assert!(rt; rhs_word(&regs, &Rhs::Reg(Reg::new(30))) == 7);
    assert!(rt; rhs_word(&regs, &Rhs::Lit(255)) == 255);
}

/// Whether the words begin so.
fn begins_with(words: &[u64], first: &[u64]) -> bool {
    words.get(..first.len()) == Some(first)
}

/// Nine bytes from the third quadword on: the last is filled up with zeros, as all others are.
#[test]
fn bytes_fill_quadwords(rt: HostRuntime) -> Result<(), Fail> {
    let mut words = vec![in rt.alloc(); 1; QUADWORDS]?;
    fill(words.as_mut_slice(), 2, &[1, 2, 3, 4, 5, 6, 7, 8, 9]);
    let first = [0, 0, 0x0807_0605_0403_0201, 9, 0];
    assert!(rt; begins_with(&words, &first));
    Ok(())
}

//! A table beside a plain program, and what is spent of a limit. What else is asked of terms is in
//! rows of test_lf, and of containers' terms in rows of test_tables (`containers.txt`).

ghost use Rattle.term_table.specs.Table.{TableView};
ghost use Rattle.hereditary_subst.specs.Kept.{IsMemo};

use hereditary_subst::{Exhausted, Memo, weaken_with};
use std::alloc::Global;
use std::test::Fail;
use term_table::{Node, Places, Table};

/// The table beside the plain program, a list of nodes that is searched from its start.
#[test]
fn ids_are_places_without_repeats(rt: HostRuntime) -> Result<(), Fail> {
    let mut table = Table::new(rt.alloc(), Places::of(&[]));
    let mut nodes = Vec::new(rt.alloc());
    let mut last = table.intern(Node::Fam(0))?;
    nodes.push(Node::Fam(0))?;
    for k in 0u32..300 {
        let node = match k % 4 {
            0 => Node::Var(k % 7),
            1 => Node::Deny(k % 2, u64::from(k % 3), 1),
            2 => Node::Lam(last),
            _ => Node::App(last, last),
        };
        last = table.intern(node)?;
        let place = match nodes.iter().position(|known| *known == node) {
            Some(place) => place,
            None => {
                nodes.push(node)?;
                nodes.len() - 1
            }
        };
        assert!(rt; last.index() == place, "at {k}");
        assert!(rt; table.node(last) == node, "at {k}");
    }
    assert!(rt; table.count() == nodes.len() as u64);
    Ok(())
}

/// Sixteen steps count as a result, and each call as one. A call that asks for more than is left
/// takes what is left.
#[test]
fn what_is_spent_counts(rt: HostRuntime) {
    let mut memo = Memo::new(rt.alloc(), 4);
    assert!(rt; memo.spend().is_ok());
    assert!(rt; memo.spend_steps(47).is_ok());
    assert!(rt; memo.spend_steps(0).is_err());
    assert!(rt; memo.spend().is_err());
    let mut short = Memo::new(rt.alloc(), 3);
    assert!(rt; short.spend_steps(48).is_err());
    assert!(rt; short.spend().is_err());
}

/// Without a limit nothing counts.
#[test]
fn without_a_limit_nothing_counts(rt: HostRuntime) {
    let mut memo = Memo::unlimited(rt.alloc());
    assert!(rt; memo.spend_steps(u64::MAX).is_ok());
    assert!(rt; memo.spend().is_ok());
}

/// Shifts a term of four levels.
fn shifted(alloc: Global, memo: &mut Memo) -> Result<bool, Exhausted>
    requires { (t : TableView) → IsMemo t memo.old }
{
    let mut table = Table::new(alloc, Places::of(&[]));
    let a = table.intern(Node::Var(0))?;
    let b = table.intern(Node::App(a, a))?;
    let c = table.intern(Node::App(b, b))?;
    let d = table.intern(Node::App(c, c))?;
    Ok(weaken_with(&mut table, memo, d, 1)?.is_some())
}

/// The answer of a memo that may cache no result, and of one without a limit.
#[test]
fn a_shift_is_limited(rt: HostRuntime) {
    let mut none = Memo::new(rt.alloc(), 0);
    assert!(rt; shifted(rt.alloc(), &mut none) == Err(Exhausted::Results));
    let mut memo = Memo::unlimited(rt.alloc());
    assert!(rt; shifted(rt.alloc(), &mut memo) == Ok(true));
}

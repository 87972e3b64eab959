//! Builds rules' constants applied to terms in a table.

ghost use Rattle.std.specs.Prelude.{IfOk};
ghost use Rattle.term_table.specs.Tree.{Con, Num, apps};
ghost use Rattle.term_table.specs.Table.{IsKnown, AllKnown, tree_at, Extends};
ghost use Rattle.lf_signature.specs.Nodes.{IsIdOf};
ghost use Rattle.lf_terms.specs.Instance.{trees_of};

use std::alloc::AllocError;
use term_table::{Id, Node, Table};

/// A term applied to terms, the first first.
fn applied(table: &mut Table, head: Id, args: &[Id]) -> Result<Id, AllocError>
    requires head { IsKnown table.old head }
    requires args { AllKnown table.old args.now }
    ensures id { IfOk result
        (IsIdOf table.new (apps (tree_at table.old head) (trees_of table.old args.now))) }
    ensures extends { Extends table.old table.new }
{
    match args {
        [] => Ok(head),
        [first, rest @ ..] => {
            let next = table.intern(Node::App(head, *first))?;
            applied(table, next, rest)
        }
    }
}

/// Builds the constant of the rule with this number applied to `args`, in order: its parameters and
/// then proofs of its premises, or the first of these. Doesn't check what the arguments are.
///
/// Errors: out of memory alone; each id keeps its tree.
pub fn rule_term(table: &mut Table, number: u32, args: &[Id]) -> Result<Id, AllocError>
    requires { AllKnown table.old args.now }
    ensures id { IfOk result
        (IsIdOf table.new (apps (Con (Num number)) (trees_of table.old args.now))) }
    ensures extends { Extends table.old table.new }
{
    let head = table.intern(Node::Const(number))?;
    applied(table, head, args)
}

//! Rounds: the goals of a container, one after the other.

ghost use Rattle.std.specs.Prelude.{◌≤◌, OnOk, length, map};
ghost use Rattle.alpha_cfg.specs.Cuts.{AreFlags, unfolded_of};
ghost use Rattle.term_table.specs.Table.{Extends, id_trees};
ghost use Rattle.lf_signature.specs.Constants.{Longest};
ghost use Rattle.proof_container.specs.Views.{contents_of};
ghost use Rattle.prover_goals.specs.Search.{IsSearch, IsContext};
ghost use Rattle.vcgen.specs.Answers.{AreLowInvs};
ghost use Rattle.vcgen.specs.Encoded.{AreForms};
ghost use Rattle.vcgen.specs.declared.condition.TheConstants.{MAX_UNFOLDED};
ghost use Rattle.pcc_gate.specs.Passing.{Passes};
ghost use Rattle.pcc_gate.specs.Answers.{IsHeld};

use crate::fault::RoundFault;
use crate::judging::{Class, context_of, is_easy, left_of};
use alpha_cfg::Cut;
use auto_candidates::known;
use hereditary_subst::Exhausted;
use pcc_gate::{GateFault, Passed, front};
use policy_set::Policy;
use prover_conditions::condition_in;
use prover_goals::{Context, Search};
use prover_ids::{FormNode, Sides, form_node};
use std::alloc::Global;
use term_table::{Id, Table};
use view_goals::{PartRows, Row, Why, condition_goals};

/// As so many steps a term of the condition counts, which are three results.
const STEPS_A_TERM: u64 = 48;

/// The most conjuncts of an invariant that are asked about one by one.
const MOST_CONJUNCTS: u32 = 4_096;

/// How a round asks.
#[derive(Clone, Copy, Debug, PartialEq, Eq)]
pub struct Manner {
    /// The most results that it caches.
    pub steps: usize,
    /// Whether it ends at the first goal that isn't easy.
    pub first: bool,
    /// Whether goals are easy too that `auto_proofs` proves, but not `prove`.
    pub wider: bool,
}

/// A conjunct of an invariant that isn't easy somewhere where the invariant is reached.
#[derive(Clone, Copy, Debug, PartialEq, Eq)]
pub struct Missing {
    /// The invariant's index.
    pub index: u32,
    /// The number of the conjunct, from 0: that many second sides are taken before a first one.
    pub conjunct: u32,
}

/// What a round found.
#[derive(Drop)]
pub struct Round {
    /// Conjuncts that aren't easy; one may be there more than once.
    pub missing: Vec<Missing>,
    /// How many goals that aren't invariants aren't easy.
    pub hard: u32,
    /// The results that the round could have cached beside those that it did.
    pub left: usize,
}

impl Round {
    /// Returns whether each goal is easy.
    pub fn is_proved(&self) -> bool {
        self.missing.is_empty() && self.hard == 0
    }
}

/// A round under way: the table and the search, what is asked, and what is found.
#[derive(Drop)]
struct Asking {
    table: Table,
    search: Search,
    class: Class,
    // whether the round ends at the first goal that isn't easy
    first: bool,
    found: Round,
}

impl Asking {
    /// Whether the round is over.
    fn is_over(&self) -> bool {
        self.first && !self.found.is_proved()
    }

    /// Whether the goal is easy; one that isn't of the table isn't.
    fn is_easy(&mut self, context: &mut Context, goal: Id) -> Result<bool, Exhausted>
        requires search { IsSearch self.old.table self.old.search }
        requires context { IsContext self.old.table context.old }
        ensures search { OnOk result (IsSearch self.new.table self.new.search) }
        ensures context { OnOk result (IsContext self.new.table context.new) }
    {
        match known(&self.table, goal) {
            Some(goal) => {
                let class = self.class;
                is_easy(&mut self.table, &mut self.search, context, class, goal)
            }
            None => Ok(false),
        }
    }

    /// Asks about each conjunct of the invariant that a goal is, of which at most `most` are left.
    fn ask_conjuncts(
        &mut self,
        context: &mut Context,
        at: Missing,
        goal: Id,
        most: u32,
    ) -> Result<(), Exhausted>
        requires search { IsSearch self.old.table self.old.search }
        requires context { IsContext self.old.table context.old }
        ensures { OnOk result (IsSearch self.new.table self.new.search) }
    {
        let rest = match conjuncts_of(&self.table, goal) {
            Some(sides) if most > 0 => sides,
            _ => {
                if !self.is_easy(context, goal)? {
                    self.found.missing.push(at)?;
                }
                return Ok(());
            }
        };
        if !self.is_easy(context, rest.left)? {
            self.found.missing.push(at)?;
        }
        let next = Missing {
            index: at.index,
            conjunct: at.conjunct.saturating_add(1),
        };
        self.ask_conjuncts(context, next, rest.right, most - 1)
    }

    /// Asks about a goal under these formulas.
    fn ask_goal(&mut self, forms: &[Id], why: Why, goal: Id) -> Result<(), Exhausted>
        requires { IsSearch self.old.table self.old.search }
        ensures { OnOk result (IsSearch self.new.table self.new.search) }
    {
        let class = self.class;
        let mut context = context_of(&mut self.table, &mut self.search, class, forms)?;
        match why {
            Why::Reach(index) => {
                let at = Missing { index, conjunct: 0 };
                self.ask_conjuncts(&mut context, at, goal, MOST_CONJUNCTS)
            }
            _ => {
                if !self.is_easy(&mut context, goal)? {
                    self.found.hard = self.found.hard.saturating_add(1);
                }
                Ok(())
            }
        }
    }

    /// Asks about the goal that the row is, under the formulas of the branches that it stands under;
    /// or adds the formula of a branch to these.
    fn ask_row(&mut self, forms: &mut Vec<Id>, row: &Row) -> Result<(), Exhausted>
        requires { IsSearch self.old.table self.old.search }
        ensures { OnOk result (IsSearch self.new.table self.new.search) }
    {
        match row {
            Row::Goal {
                why,
                formula,
                depth,
                ..
            } => {
                forms.truncate(*depth as usize + 1);
                self.ask_goal(forms, *why, *formula)
            }
            Row::Both => Ok(()),
            Row::Under {
                known: branch,
                depth,
                ..
            } => {
                forms.truncate(*depth as usize + 1);
                forms.push(*branch)?;
                Ok(())
            }
        }
    }

    /// Asks about the goals of a part.
    fn ask_part(&mut self, part: &PartRows) -> Result<(), Exhausted>
        requires { IsSearch self.old.table self.old.search }
        ensures { OnOk result (IsSearch self.new.table self.new.search) }
    {
        let mut forms = Vec::new(self.table.allocator());
        forms.push(part.known)?;
        for i in 0..part.rows.len() {
            self.ask_row(&mut forms, &part.rows[i])?;
            if self.is_over() {
                return Ok(());
            }
        }
        Ok(())
    }

    /// Asks about the goals of all parts.
    fn ask_parts(&mut self, parts: &[PartRows]) -> Result<(), Exhausted>
        requires { IsSearch self.old.table self.old.search }
    {
        for i in 0..parts.len() {
            self.ask_part(&parts[i])?;
            if self.is_over() {
                return Ok(());
            }
        }
        Ok(())
    }
}

/// The sides of a conjunction, if the formula is one.
fn conjuncts_of(table: &Table, goal: Id) -> Option<Sides> {
    match form_node(table, known(table, goal)?) {
        FormNode::And(left, right) => Some(Sides { left, right }),
        _ => None,
    }
}

/// The parts of the condition of cut code, with their goals.
fn parts_of(
    table: &mut Table,
    policy: &Policy,
    cut: &Cut,
    invs: &[(u32, Id)],
    bound: Option<u32>,
) -> Result<Vec<PartRows>, Exhausted>
    requires invs { AreLowInvs table.old invs.now }
    requires forms { AreForms Longest bound (id_trees table.old invs.now) }
    requires marks { AreFlags (map (λ p. p.0) invs.now) (length cut.now.code) cut.now.marks }
    requires short { unfolded_of cut.now.code cut.now.marks ≤ MAX_UNFOLDED }
    ensures { Extends table.old table.new }
{
    let condition = condition_in(table, true, policy, cut, invs, bound)?;
    let parts = condition_goals(table, cut, invs, bound, condition)?;
    Ok(parts)
}

/// The round over what passed the checks before the proof.
fn asked_of(
    policy: &Policy,
    bytes: &[u8],
    passed: Passed<'_>,
    manner: Manner,
) -> Result<Round, Exhausted>
    requires passes { let contents = contents_of passed.container in
        Passes policy.now bytes.now contents passed.cut.code passed.cut.marks }
    requires held { IsHeld passed.container }
{
    let _ = bytes; // only the clauses speak of it
    let container = passed.container;
    let cut = passed.cut;
    let bound = container.bound;
    let mut table = container.table;
    let invs = container.invs;
    let before = table.count();
    let parts = parts_of(&mut table, policy, &cut, &invs, bound)?;
    let made = table.count().saturating_sub(before);
    let mut search = Search::new(&table, manner.steps);
    search.spend_steps(made.saturating_mul(STEPS_A_TERM))?;
    let found = Round {
        missing: Vec::new(table.allocator()),
        hard: 0,
        left: 0,
    };
    let mut asking = Asking {
        table,
        search,
        class: Class {
            counted: bound.is_some(),
            wider: manner.wider,
        },
        first: manner.first,
        found,
    };
    asking.ask_parts(&parts)?;
    asking.found.left = left_of(&mut asking.search, manner.steps);
    Ok(asking.found)
}

/// Asks about each goal of the verification condition of the container in `bytes` under `policy`
/// which aren't easy, as `manner` says. In the steps that it takes the condition's terms count and
/// the goals that are asked about.
///
/// Errors: `Refused` names the first check before the proof that fails; `Memory` and `Steps` say
/// nothing about the bytes.
pub fn ask_round(
    alloc: Global,
    policy: &Policy,
    bytes: &[u8],
    manner: Manner,
) -> Result<Round, RoundFault> {
    match front(alloc, policy, bytes) {
        Err(GateFault::Refused(refusal)) => Err(RoundFault::Refused(refusal)),
        Err(GateFault::Memory) => Err(RoundFault::Memory),
        Err(GateFault::Results) => Err(RoundFault::Steps),
        Ok(passed) => Ok(asked_of(policy, bytes, passed, manner)?),
    }
}

//! Finds the first address in a hypothesis' conclusion by which it gives access.
//!
//! Conjunctions are searched from the left. Whether an address gives access doesn't depend on the
//! path to it, so no part of the conclusion is visited twice. Errors: out of memory, or the
//! search's limit is reached; each id keeps its tree.

ghost use Rattle.std.specs.Prelude.{◌≡◌, ◌<◌, true, Option, Some, List, IfOk, IfSome, OnOk};
ghost use Rattle.std.specs.Option.{option_map};
ghost use Rattle.term_table.specs.Table.{TableView, IsKnown, tree_at, Extends};
ghost use Rattle.formula_tree.specs.Formulas.{Exp, Form};
ghost use Rattle.lf_terms.specs.Encoding.{exp_encoding, form_encoding};
ghost use Rattle.prover_ids.specs.Hypotheses.{AreHyps};
ghost use Rattle.prover_class.specs.Hypotheses.{Hyps};
ghost use Rattle.prover_class.specs.Access.{without_access, Opened, opening_of, opened_by, opened_with, opened_at, from_side};
ghost use Rattle.prover_class.specs.Access as class;
ghost use Rattle.prover_goals.specs.Search.{IsSearch, IsContext, IsAfter};
ghost use Rattle.prover_conditions.specs.Inside.AccessIds.{access_of, side_of, IsKnownGrant, IsKnownOpening, IsKnownFound, IfOpened, IfFound, IsOpeningAt, IsFoundHere, IsWalk, IsBothWalk, Missed};
ghost use Rattle.hereditary_subst.specs.Limits.{SpendsResults};

use crate::access_instances::instance_of;
use crate::access_moves::{exp_with, form_with, is_asked, same_address};
use hereditary_subst::Exhausted;
use prover_goals::{Context, Search, proof_without_access};
use prover_ids::{Access, FormNode, form_node};
use std::alloc::AllocError;
use std::collections::BTreeSet;
use term_table::{Id, Table};

/// The access that the goal names, its address, and whether steps are counted when premises are
/// proved.
#[derive(Clone, Copy)]
pub(crate) struct Asked {
    pub(crate) counted: bool,
    pub(crate) access: Access,
    pub(crate) address: Id,
}

/// A hypothesis `(imp premise conclusion)`, or if quantified `(all (imp premise conclusion))`.
#[derive(Clone, Copy)]
pub(crate) struct Grant {
    pub(crate) quantified: bool,
    pub(crate) premise: Id,
    pub(crate) conclusion: Id,
    pub(crate) proof: Id,
}

/// An address by which a hypothesis gives access.
#[derive(Clone, Copy)]
pub(crate) struct Opening {
    // with what is put for the variable
    pub(crate) address: Id,
    // what is put for the variable
    pub(crate) put: Id,
    // of the premise, with what is put
    pub(crate) proof: Id,
}

/// A side of a conjunction.
#[derive(Clone, Copy)]
pub(crate) enum Side {
    /// The first.
    Left,
    /// The second.
    Right,
}

/// An address that gives access, with the way to it.
#[derive(Drop)]
pub(crate) struct Found {
    // the last side first
    pub(crate) way: Vec<Side>,
    pub(crate) opening: Opening,
}

/// A part of the conclusion, as a key.
#[derive(Clone, Copy, PartialEq, Eq, PartialOrd, Ord)]
pub(crate) struct Part {
    form: u64,
}

/// The key of an id.
fn part_of(form: Id) -> Part
    ensures { result.form ≡ form }
{
    Part {
        form: form.index() as u64,
    }
}

/// What the address gives if the premise is proved.
fn opened(
    table: &mut Table,
    search: &mut Search,
    context: &mut Context,
    counted: bool,
    premise: Id,
    address: Id,
    put: Id,
) -> Result<Option<Opening>, Exhausted>
    requires premise { IsKnown table.old premise }
    requires address { IsKnown table.old address }
    requires put { IsKnown table.old put }
    requires search { IsSearch table.old search.old }
    requires context { IsContext table.old context.old }
    ensures known { IfOk result (λ o. IfSome o (IsKnownOpening table.new)) }
    ensures exact { let c = context.old in (Γ : Hyps) (P : Form) (x y : Exp)
        → AreHyps table.old c.hyps Γ → tree_at table.old premise ≡ form_encoding P
        → tree_at table.old address ≡ exp_encoding x → tree_at table.old put ≡ exp_encoding y
        → IfOk result (IfOpened table.new
        (option_map (opening_of x y) (without_access counted c.outside Γ P))) }
    ensures extends { Extends table.old table.new }
    ensures after { OnOk result (IsAfter table.new search.new context.old context.new) }
    ensures spends { SpendsResults table.new search.old.memo search.new.memo result }
{
    match proof_without_access(table, search, context, counted, premise)? {
        None => Ok(None),
        Some(proof) => Ok(Some(Opening {
            address,
            put,
            proof,
        })),
    }
}

/// What the address gives if it has the normal form of `a` and the premise is proved.
#[tactic(auto, using(prover_goals::proofs::WordRows::rows))]
fn opened_by(
    table: &mut Table,
    search: &mut Search,
    context: &mut Context,
    counted: bool,
    a: Id,
    premise: Id,
    address: Id,
) -> Result<Option<Opening>, Exhausted>
    requires a { IsKnown table.old a }
    requires premise { IsKnown table.old premise }
    requires address { IsKnown table.old address }
    requires search { IsSearch table.old search.old }
    requires context { IsContext table.old context.old }
    ensures known { IfOk result (λ o. IfSome o (IsKnownOpening table.new)) }
    ensures exact { let c = context.old in (Γ : Hyps) (w : Exp) (P : Form) (x : Exp)
        → AreHyps table.old c.hyps Γ → tree_at table.old a ≡ exp_encoding w
        → tree_at table.old premise ≡ form_encoding P
        → tree_at table.old address ≡ exp_encoding x → IfOk result (IfOpened table.new
        (opened_by (without_access counted) c.outside Γ w P x x)) }
    ensures extends { Extends table.old table.new }
    ensures after { OnOk result (IsAfter table.new search.new context.old context.new) }
    ensures spends { SpendsResults table.new search.old.memo search.new.memo result }
{
    let outside = context.outside;
    if !same_address(table, search, outside, address, a)? {
        return Ok(None);
    }
    let opening = opened(table, search, context, counted, premise, address, address)?;
    Ok(opening)
}

/// What the address gives, as `opened_by` finds it, after `put` is put for the variable.
#[tactic(auto, using(prover_goals::proofs::WordRows::rows))]
fn opened_with(
    table: &mut Table,
    search: &mut Search,
    context: &mut Context,
    counted: bool,
    a: Id,
    premise: Id,
    address: Id,
    put: Id,
) -> Result<Option<Opening>, Exhausted>
    requires a { IsKnown table.old a }
    requires premise { IsKnown table.old premise }
    requires address { IsKnown table.old address }
    requires put { IsKnown table.old put }
    requires search { IsSearch table.old search.old }
    requires context { IsContext table.old context.old }
    ensures known { IfOk result (λ o. IfSome o (IsKnownOpening table.new)) }
    ensures exact { let c = context.old in (Γ : Hyps) (w : Exp) (P : Form) (x y : Exp)
        → AreHyps table.old c.hyps Γ → tree_at table.old a ≡ exp_encoding w
        → tree_at table.old premise ≡ form_encoding P
        → tree_at table.old address ≡ exp_encoding x → tree_at table.old put ≡ exp_encoding y
        → IfOk result (IfOpened table.new
        (opened_with (without_access counted) c.outside Γ w P x y)) }
    ensures extends { Extends table.old table.new }
    ensures after { OnOk result (IsAfter table.new search.new context.old context.new) }
    ensures spends { SpendsResults table.new search.old.memo search.new.memo result }
{
    let outside = context.outside;
    let there = exp_with(table, search, address, put)?;
    if !same_address(table, search, outside, there, a)? {
        return Ok(None);
    }
    let wanted = form_with(table, search, premise, put)?;
    let opening = opened(table, search, context, counted, wanted, there, put)?;
    Ok(opening)
}

/// What the address gives of a quantified hypothesis.
#[tactic(auto, using(prover_goals::proofs::WordRows::rows))]
fn opened_instance(
    table: &mut Table,
    search: &mut Search,
    context: &mut Context,
    counted: bool,
    a: Id,
    premise: Id,
    address: Id,
) -> Result<Option<Opening>, Exhausted>
    requires a { IsKnown table.old a }
    requires premise { IsKnown table.old premise }
    requires address { IsKnown table.old address }
    requires search { IsSearch table.old search.old }
    requires context { IsContext table.old context.old }
    ensures known { IfOk result (λ o. IfSome o (IsKnownOpening table.new)) }
    ensures exact { let c = context.old in (Γ : Hyps) (w : Exp) (P : Form) (x : Exp)
        → AreHyps table.old c.hyps Γ → tree_at table.old a ≡ exp_encoding w
        → tree_at table.old premise ≡ form_encoding P
        → tree_at table.old address ≡ exp_encoding x → IfOk result (IfOpened table.new
        (opened_at (without_access counted) true c.outside Γ w P x)) }
    ensures extends { Extends table.old table.new }
    ensures after { OnOk result (IsAfter table.new search.new context.old context.new) }
    ensures spends { SpendsResults table.new search.old.memo search.new.memo result }
{
    let outside = context.outside;
    match instance_of(table, search, outside, a, address)? {
        None => Ok(None),
        Some(put) => {
            let opening = opened_with(table, search, context, counted, a, premise, address, put)?;
            Ok(opening)
        }
    }
}

/// What the address of the conclusion gives.
#[tactic(auto, using(prover_goals::proofs::WordRows::rows))]
fn opening_at(
    table: &mut Table,
    search: &mut Search,
    context: &mut Context,
    asked: &Asked,
    grant: &Grant,
    address: Id,
) -> Result<Option<Opening>, Exhausted>
    requires asked { IsKnown table.old asked.now.address }
    requires grant { IsKnownGrant table.old grant.now }
    requires address { IsKnown table.old address }
    requires search { IsSearch table.old search.old }
    requires context { IsContext table.old context.old }
    ensures known { IfOk result (λ o. IfSome o (IsKnownOpening table.new)) }
    ensures exact { let c = context.old in IfOk result (IsOpeningAt table.old table.new c.hyps
        c.outside asked.now grant.now address) }
    ensures extends { Extends table.old table.new }
    ensures after { OnOk result (IsAfter table.new search.new context.old context.new) }
    ensures spends { SpendsResults table.new search.old.memo search.new.memo result }
{
    let (counted, a) = (asked.counted, asked.address);
    let premise = grant.premise;
    if grant.quantified {
        let opening = opened_instance(table, search, context, counted, a, premise, address)?;
        Ok(opening)
    } else {
        let opening = opened_by(table, search, context, counted, a, premise, address)?;
        Ok(opening)
    }
}

/// What the address of the conclusion gives, with the empty way to it. Kept out of the walk's
/// frames.
#[inline(never)]
#[tactic(auto, using(prover_goals::proofs::WordRows::rows))]
fn found_at(
    table: &mut Table,
    search: &mut Search,
    context: &mut Context,
    asked: &Asked,
    grant: &Grant,
    address: Id,
) -> Result<Option<Found>, Exhausted>
    requires asked { IsKnown table.old asked.now.address }
    requires grant { IsKnownGrant table.old grant.now }
    requires address { IsKnown table.old address }
    requires search { IsSearch table.old search.old }
    requires context { IsContext table.old context.old }
    ensures known { IfOk result (λ o. IfSome o (IsKnownFound table.new)) }
    ensures exact { let c = context.old in IfOk result (IsFoundHere table.old table.new c.hyps
        c.outside asked.now grant.now address) }
    ensures extends { Extends table.old table.new }
    ensures after { OnOk result (IsAfter table.new search.new context.old context.new) }
    ensures spends { SpendsResults table.new search.old.memo search.new.memo result }
{
    match opening_at(table, search, context, asked, grant, address)? {
        None => Ok(None),
        Some(opening) => {
            let alloc = table.allocator();
            Ok(Some(Found {
                way: Vec::new(alloc),
                opening,
            }))
        }
    }
}

/// The result, one conjunction further out. Kept out of the walk's frames.
#[inline(never)]
fn from_side(found: Found, side: Side) -> Result<Option<Found>, AllocError>
    ensures known { (t : TableView) → IsKnownFound t found
        → IfOk result (λ o. IfSome o (IsKnownFound t)) }
    ensures exact { (t : TableView) (o : Option (List class.Side × Opened))
        → IfFound t o (Some found) → IfOk result (IfFound t (from_side (side_of side) o)) }
{
    let mut found = found;
    found.way.push(side)?;
    Ok(Some(found))
}

/// The first address of the part that gives access. Nothing does in the parts of `misses`.
#[cycle(walking)]
#[tactic(auto, using(prover_goals::proofs::WordRows::rows))]
pub(crate) fn walk(
    table: &mut Table,
    search: &mut Search,
    context: &mut Context,
    asked: &Asked,
    grant: &Grant,
    misses: &mut BTreeSet<Part>,
    form: Id,
) -> Result<Option<Found>, Exhausted>
    requires asked { IsKnown table.old asked.now.address }
    requires grant { IsKnownGrant table.old grant.now }
    requires form { IsKnown table.old form }
    requires search { IsSearch table.old search.old }
    requires context { IsContext table.old context.old }
    requires misses { Missed table.old context.old asked.now grant.now misses.old }
    ensures known { IfOk result (λ o. IfSome o (IsKnownFound table.new)) }
    ensures exact { let c = context.old in IfOk result (IsWalk table.old table.new c.hyps
        c.outside asked.now grant.now form) }
    ensures extends { Extends table.old table.new }
    ensures after { OnOk result (IsAfter table.new search.new context.old context.new) }
    ensures misses { OnOk result (Missed table.new context.new asked.now grant.now misses.new) }
    ensures spends { SpendsResults table.new search.old.memo search.new.memo result }
{
    let part = part_of(form);
    if misses.contains(&part) {
        return Ok(None);
    }
    match walk_parts(table, search, context, asked, grant, misses, form)? {
        Some(found) => Ok(Some(found)),
        None => {
            search.memo.spend()?;
            misses.insert(part)?;
            Ok(None)
        }
    }
}

/// The first address that gives access in a part that wasn't visited yet.
#[cycle(walking)]
#[tactic(auto, using(prover_goals::proofs::WordRows::rows))]
fn walk_parts(
    table: &mut Table,
    search: &mut Search,
    context: &mut Context,
    asked: &Asked,
    grant: &Grant,
    misses: &mut BTreeSet<Part>,
    form: Id,
) -> Result<Option<Found>, Exhausted>
    requires asked { IsKnown table.old asked.now.address }
    requires grant { IsKnownGrant table.old grant.now }
    requires form { IsKnown table.old form }
    requires search { IsSearch table.old search.old }
    requires context { IsContext table.old context.old }
    requires misses { Missed table.old context.old asked.now grant.now misses.old }
    ensures known { IfOk result (λ o. IfSome o (IsKnownFound table.new)) }
    ensures exact { let c = context.old in IfOk result (IsWalk table.old table.new c.hyps
        c.outside asked.now grant.now form) }
    ensures extends { Extends table.old table.new }
    ensures after { OnOk result (IsAfter table.new search.new context.old context.new) }
    ensures misses { OnOk result (Missed table.new context.new asked.now grant.now misses.new) }
    ensures spends { SpendsResults table.new search.old.memo search.new.memo result }
{
    match form_node(table, form) {
        FormNode::And(a, b) => {
            let found = walk_both(table, search, context, asked, grant, misses, form, a, b)?;
            Ok(found)
        }
        FormNode::Right(given, z) => {
            if !is_asked(asked.access, given) {
                return Ok(None);
            }
            let found = found_at(table, search, context, asked, grant, z)?;
            Ok(found)
        }
        FormNode::True => Ok(None),
        FormNode::False => Ok(None),
        FormNode::Relation(_, _, _) => Ok(None),
        FormNode::Or(_, _) => Ok(None),
        FormNode::Imp(_, _) => Ok(None),
        FormNode::All(_) => Ok(None),
        FormNode::AllMem(_) => Ok(None),
    }
}

/// The first address that gives access in a conjunction.
#[cycle(walking)]
#[tactic(auto, using(prover_goals::proofs::WordRows::rows))]
fn walk_both(
    table: &mut Table,
    search: &mut Search,
    context: &mut Context,
    asked: &Asked,
    grant: &Grant,
    misses: &mut BTreeSet<Part>,
    form: Id,
    a: Id,
    b: Id,
) -> Result<Option<Found>, Exhausted>
    requires asked { IsKnown table.old asked.now.address }
    requires grant { IsKnownGrant table.old grant.now }
    requires form { IsKnown table.old form }
    requires below { (a < form) × (b < form) }
    requires search { IsSearch table.old search.old }
    requires context { IsContext table.old context.old }
    requires misses { Missed table.old context.old asked.now grant.now misses.old }
    ensures known { IfOk result (λ o. IfSome o (IsKnownFound table.new)) }
    ensures exact { let c = context.old in IfOk result (IsBothWalk table.old table.new c.hyps
        c.outside asked.now grant.now a b) }
    ensures extends { Extends table.old table.new }
    ensures after { OnOk result (IsAfter table.new search.new context.old context.new) }
    ensures misses { OnOk result (Missed table.new context.new asked.now grant.now misses.new) }
    ensures spends { SpendsResults table.new search.old.memo search.new.memo result }
{
    match walk(table, search, context, asked, grant, misses, a)? {
        Some(found) => {
            let further = from_side(found, Side::Left)?;
            Ok(further)
        }
        None => match walk(table, search, context, asked, grant, misses, b)? {
            Some(found) => {
                let further = from_side(found, Side::Right)?;
                Ok(further)
            }
            None => Ok(None),
        },
    }
}

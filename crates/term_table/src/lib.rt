//! A hash-consing table of LF terms and types, which also stores each node's height and weight.
//!
//! Each tree is in the table once. Contracts see a table as a list of finite trees and an id as an
//! index into it (`specs/Table`). The layers above use two facts: `intern` returns the id of the
//! node's tree, and every id keeps its tree through each later call, also through a call that runs
//! out of memory. This crate also has the definitions of LF that all layers above share: trees and
//! shifts (`specs/Tree`), simple types and hereditary substitution (`specs/Subst`), and measures
//! (`specs/Measures`). Source: Harper, Honsell and Plotkin, A Framework for Defining Logics, JACM
//! 1993, in its canonical presentation.
#![tactic(auto)]

mod theorems;

ghost use Rattle.std.specs.Prelude.{◌≡◌, ℕ, List, Option, ◌<◌, ◌≤◌, ◌+◌, ◌^◌, ◌↔◌, length, [], get_or, max, ◌-◌, if◌then◌else◌, nat_lt, ◌&&◌, not, IfOk, OnErr, IsTrue};
ghost use Rattle.term_table.specs.Measures.{height_of, weight_of, capped};
ghost use Rattle.term_table.specs.Table.{counts_of, IsKnown, tree_at, node_tree, node_tree_in, PartsBelow, PartsKnown, AreDifferent, AreSmall, Adds, Extends};
ghost use Rattle.term_table.specs.Inside.Entries.{entry_trees, IsSmallNode, IsMeasured, AreMeasured};
ghost use Rattle.term_table.specs.Inside.Keys.{key_of};
ghost use Rattle.term_table.specs.Scope.{HasReach};
ghost use Rattle.term_table.specs.Inside.Reach.{is_atomic_node, is_term_node, reach_outside};

use std::alloc::{AllocError, Global};
use std::collections::BTreeMap;
use std::marker::Model;
pub use theorems::{shift_laws, substitution_laws};

/// The index of a tree in its table. Contracts see it as a number.
#[derive(Clone, Copy, PartialEq, Eq, PartialOrd, Ord, Hash, Debug)]
pub struct Id(u64);

impl Model for Id {
    ghost use Rattle.std.specs.Prelude.{ℕ};

    ghost Value = { ℕ };

    ghost view = { λ i. i.0 };

    ghost inverse = { λ n. record { 0 = n } };
}

impl Id {
    /// Returns the index: how many trees the table had before this one.
    pub fn index(self) -> usize
        ensures { result ≡ self }
    {
        self.0 as usize
    }
}

/// A node of the term graph: its children are ids of the table.
#[derive(Clone, Copy, PartialEq, Eq, PartialOrd, Ord, Hash, Debug)]
pub enum Node {
    /// A variable as a de Bruijn index; 0 is the nearest binder.
    Var(u32),
    /// A constant of the signature, by its number.
    Const(u32),
    /// A 64-bit word.
    Lit(u64),
    /// The evaluation of an operator, by its number, at two words: it proves what the operator
    /// gives.
    Calc(u32, u64, u64),
    /// A proof that a relation, by its number, holds of two words.
    Fact(u32, u64, u64),
    /// A proof that a relation, by its number, doesn't hold of two words.
    Deny(u32, u64, u64),
    /// The lemma with this number: a proof of its formula, if the signature has such a lemma.
    Lemma(u32),
    /// A term applied to a term: function, argument.
    App(Id, Id),
    /// The abstraction of a term: its body, under one more binder.
    Lam(Id),
    /// A type family, by its number.
    Fam(u32),
    /// A type family applied to a term.
    TApp(Id, Id),
    /// A dependent function type: its domain, and its codomain under one more binder.
    Pi(Id, Id),
}

/// How many of its first arguments are parameters, for each numbered constant; 0 past the end. An
/// argument in a parameter position counts 1 in a weight, whatever it is.
#[derive(Clone, Copy)]
pub struct Places {
    counts: &'static [u8],
}

impl Places {
    /// Returns the places with these counts, one for each constant by number.
    pub fn of(counts: &'static [u8]) -> Places
        ensures { counts_of result ≡ counts.now }
    {
        Places { counts }
    }

    /// How many parameters the constant has.
    fn count(self, constant: u32) -> u32
        ensures { result ≡ get_or (counts_of self) constant 0 }
    {
        match self.counts.get(constant as usize) {
            None => 0,
            Some(count) => u32::from(*count),
        }
    }
}

/// A node with its measures, and how many of its head's parameter places no argument fills yet.
#[derive(Clone, Copy)]
struct Entry {
    node: Node,
    height: u32,
    weight: u32,
    left: u32,
    // the variables are bound, or among so many next outside; u32::MAX says nothing
    reach: u32,
}

/// A tree without parts.
fn leaf(node: Node, left: u32, reach: u32) -> Entry
    ensures { result ≡ record { node = node; height = 1; weight = 1; left = left; reach = reach } }
{
    Entry {
        node,
        height: 1,
        weight: 1,
        left,
        reach,
    }
}

/// Whether the node is a variable, a constant or an application.
fn is_atomic(node: Node) -> bool
    ensures { result ≡ is_atomic_node node }
{
    match node {
        Node::Lam(_) | Node::Fam(_) | Node::TApp(_, _) | Node::Pi(_, _) => false,
        _ => true,
    }
}

/// Whether the node is a term's.
fn is_term(node: Node) -> bool
    ensures { result ≡ is_term_node node }
{
    match node {
        Node::Fam(_) | Node::TApp(_, _) | Node::Pi(_, _) => false,
        _ => true,
    }
}

/// The reach of a body, one binder further out.
fn outside(reach: u32) -> u32
    ensures { result ≡ reach_outside reach }
{
    if reach == u32::MAX {
        u32::MAX
    } else {
        reach.saturating_sub(1)
    }
}

/// The reach of two parts, if they may be parts of one term or type.
fn joined(first: bool, second: bool, a: u32, b: u32) -> u32
    ensures { result ≡ (if first && second then max a b else 4294967295) }
{
    if first && second { a.max(b) } else { u32::MAX }
}

/// The reach of a term under a binder.
fn under(term: bool, reach: u32) -> u32
    ensures { result ≡ (if term then reach_outside reach else 4294967295) }
{
    if term { outside(reach) } else { u32::MAX }
}

/// A tree of two parts that weighs them and 1 more.
fn pair(node: Node, a: Entry, b: Entry, reach: u32) -> Entry
    ensures reach { result.reach ≡ reach }
    ensures node { result.node ≡ node }
    ensures height { result.height ≡ capped (1 + max a.height b.height) }
    ensures weight { result.weight ≡ capped (1 + (a.weight + b.weight)) }
    ensures left { result.left ≡ 0 }
{
    Entry {
        node,
        height: a.height.max(b.height).saturating_add(1),
        weight: a.weight.saturating_add(b.weight).saturating_add(1),
        left: 0,
        reach,
    }
}

/// A term with one argument more.
fn applied(node: Node, f: Entry, a: Entry) -> Entry
    ensures node { result.node ≡ node }
    ensures height { result.height ≡ capped (1 + max f.height a.height) }
    ensures weight { result.weight ≡ capped (f.weight + (if nat_lt 0 f.left then 1 else a.weight)) }
    ensures left { result.left ≡ f.left - 1 }
    ensures reach { result.reach ≡
        (if is_atomic_node f.node && is_term_node a.node then max f.reach a.reach else 4294967295) }
{
    let counted = if f.left > 0 { 1 } else { a.weight };
    Entry {
        node,
        height: f.height.max(a.height).saturating_add(1),
        weight: f.weight.saturating_add(counted),
        left: f.left.saturating_sub(1),
        reach: joined(is_atomic(f.node), is_term(a.node), f.reach, a.reach),
    }
}

/// A term under a binder.
fn abstracted(node: Node, b: Entry) -> Entry
    ensures node { result.node ≡ node }
    ensures height { result.height ≡ capped (1 + b.height) }
    ensures weight { result.weight ≡ capped (1 + b.weight) }
    ensures left { result.left ≡ 0 }
    ensures reach { result.reach ≡
        (if is_term_node b.node then reach_outside b.reach else 4294967295) }
{
    Entry {
        node,
        height: b.height.saturating_add(1),
        weight: b.weight.saturating_add(1),
        left: 0,
        reach: under(is_term(b.node), b.reach),
    }
}

/// The node with its measures, by the entries of its parts.
fn entry_of(entries: &[Entry], places: Places, node: Node) -> Entry
    requires parts { PartsBelow (length entries.now) node }
    requires measured { AreMeasured (counts_of places) entries.now }
    ensures node { result.node ≡ node }
    ensures measured { IsMeasured (counts_of places)
        (node_tree_in (entry_trees entries.now) node) result }
{
    match node {
        Node::Var(n) => leaf(node, 0, n.saturating_add(1)),
        Node::Const(n) => leaf(node, places.count(n), 0),
        Node::App(f, a) => applied(node, entries[f.0 as usize], entries[a.0 as usize]),
        Node::Lam(b) => abstracted(node, entries[b.0 as usize]),
        Node::TApp(p, a) => {
            let family = entries[p.0 as usize];
            let argument = entries[a.0 as usize];
            let reach = joined(
                !is_term(family.node),
                is_term(argument.node),
                family.reach,
                argument.reach,
            );
            pair(node, family, argument, reach)
        }
        Node::Pi(a, b) => {
            let from = entries[a.0 as usize];
            let to = entries[b.0 as usize];
            let reach = joined(
                !is_term(from.node),
                !is_term(to.node),
                from.reach,
                outside(to.reach),
            );
            pair(node, from, to, reach)
        }
        _ => leaf(node, 0, 0),
    }
}

/// States that a node's numbers fit their fields, by the fields' types; runs nothing.
fn numbers(node: Node)
    ensures { IsSmallNode node }
{
    match node {
        Node::Var(_) | Node::Const(_) | Node::Lemma(_) | Node::Fam(_) | Node::Lit(_) => {}
        Node::Calc(_, _, _) | Node::Fact(_, _, _) | Node::Deny(_, _, _) => {}
        Node::App(_, _) | Node::Lam(_) | Node::TApp(_, _) | Node::Pi(_, _) => {}
    }
}

/// The key of a node in the index, which begins with its latest child's id. So trees that are added
/// one after another are neighbours there, however old their other parts are.
#[derive(Clone, Copy, PartialEq, Eq, PartialOrd, Ord)]
enum Key {
    /// The id of the latest child, or 0 if there is none, and the node.
    Of(u64, Node),
}

/// The key of a node.
fn key_of(node: &Node) -> Key
    ensures { result ≡ key_of node.now }
{
    let latest = match *node {
        Node::App(a, b) | Node::TApp(a, b) | Node::Pi(a, b) => a.0.max(b.0),
        Node::Lam(b) => b.0,
        _ => 0,
    };
    Key::Of(latest, *node)
}

/// A table of trees without repeats: two ids are equal exactly if their trees are.
#[derive(Drop)]
pub struct Table {
    places: Places,
    entries: Vec<Entry>,
    // each node's id, by the node's key
    index: BTreeMap<Key, Id>,
}

impl Model for Table {
    ghost use Rattle.std.specs.BTreeMap.{get};
    ghost use Rattle.term_table.specs.Table.{TableView, table_view_code, counts_of};

    ghost Value = { TableView };

    ghost coded = { table_view_code };

    ghost use Rattle.term_table.specs.contracts.KeyOrd.TheImpl as key_block;
    ghost use Rattle.term_table.specs.Inside.Entries.{entry_trees, AreEntries};
    ghost use Rattle.term_table.specs.Inside.Keys.{key_of};

    ghost view = { λ t. record { trees = entry_trees t.entries.items; places = counts_of t.places } };

    ghost invariant = { λ t. AreEntries (counts_of t.places) t.entries.items (λ n. get key_block.ghosts.cmp t.index (key_of n)) };
}

impl Table {
    /// Returns an empty table, which allocates nothing yet. Its weights go by `places`.
    pub fn new(alloc: Global, places: Places) -> Table
        ensures { result ≡ record { trees = []; places = counts_of places } }
    {
        Table {
            places,
            entries: Vec::new(alloc),
            index: BTreeMap::new(alloc),
        }
    }

    /// Returns the allocator that the table's memory comes from.
    pub fn allocator(&self) -> Global {
        *self.entries.allocator()
    }

    /// The entry of an id.
    fn entry(&self, id: Id) -> Entry
        requires { IsKnown self.now id }
        ensures tree { node_tree self.now result.node ≡ tree_at self.now id }
        ensures parts { PartsBelow id result.node }
        ensures measured { IsMeasured self.now.places (tree_at self.now id) result }
    {
        self.entries[id.0 as usize]
    }

    /// Returns the node of an id. Its children have lower ids.
    pub fn node(&self, id: Id) -> Node
        requires { IsKnown self.now id }
        ensures tree { node_tree self.now result ≡ tree_at self.now id }
        ensures parts { PartsBelow id result }
    {
        self.entry(id).node
    }

    /// Returns the height of a tree: 1 without children, else one more than its highest child.
    /// Saturates at 4,294,967,295.
    pub fn height(&self, id: Id) -> u32
        requires { IsKnown self.now id }
        ensures { result ≡ capped (height_of (tree_at self.now id)) }
    {
        self.entry(id).height
    }

    /// Returns the weight of a tree, saturated at 4,294,967,295. An atomic term weighs 1 for its
    /// head plus its arguments: an argument in a parameter position of a numbered constant counts
    /// 1, any other its own weight. Any other tree weighs 1 plus its children.
    pub fn weight(&self, id: Id) -> u32
        requires { IsKnown self.now id }
        ensures { result ≡ capped (weight_of self.now.places (tree_at self.now id)) }
    {
        self.entry(id).weight
    }

    /// Returns how far the free variables of a tree reach. If the result is below 4,294,967,295,
    /// the tree is a canonical term or a type, and each of its variables is bound or is one of that
    /// many nearest free ones. The result 4,294,967,295 says nothing.
    pub fn reach(&self, id: Id) -> u32
        requires { IsKnown self.now id }
        ensures { HasReach result (tree_at self.now id) }
    {
        self.entry(id).reach
    }

    /// Returns how many trees the table has.
    pub fn count(&self) -> u64
        ensures { result ≡ length self.now.trees }
    {
        self.entries.len() as u64
    }

    /// Returns the id with this index: the id of the tree that was added after `index` others.
    pub fn id(&self, index: u64) -> Id
        requires { IsKnown self.now index }
        ensures { result ≡ index }
    {
        let _ = &self.entries;
        Id(index)
    }

    /// States what holds of every table; runs nothing. Different ids have different trees, each
    /// tree's numbers fit their fields, and there are fewer than 2^63 trees.
    pub fn laws(&self)
        ensures different { AreDifferent self.now.trees }
        ensures small { AreSmall self.now.trees }
        ensures few { length self.now.trees < 2 ^ 63 }
    {
        let _ = &self.entries;
    }

    /// Returns whether two ids have equal trees.
    pub fn same(&self, a: Id, b: Id) -> bool
        requires a { IsKnown self.now a }
        requires b { IsKnown self.now b }
        ensures { IsTrue result ↔ (tree_at self.now a ≡ tree_at self.now b) }
    {
        self.laws();
        a == b
    }

    /// Returns the id of a node's tree, and adds the tree if the table lacks it. The children may
    /// be any ids of the table, also if the node is then no term or type of LF.
    ///
    /// Errors: out of memory; the table then has the trees that it had.
    pub fn intern(&mut self, node: Node) -> Result<Id, AllocError>
        requires { PartsKnown self.old node }
        ensures id { IfOk result
            (λ id. IsKnown self.new id × (tree_at self.new id ≡ node_tree self.old node)) }
        ensures adds { IfOk result (Adds self.old self.new (node_tree self.old node)) }
        ensures err { OnErr result (self.new ≡ self.old) }
        ensures extends { Extends self.old self.new }
    {
        let asked = key_of(&node);
        if let Some(id) = self.index.get(&asked).copied() {
            return Ok(id);
        }
        numbers(node);
        let entry = entry_of(self.entries.as_slice(), self.places, node);
        let id = Id(self.entries.len() as u64);
        self.entries.reserve(1)?;
        self.index.insert(key_of(&node), id)?;
        self.entries.push(entry)?;
        Ok(id)
    }
}

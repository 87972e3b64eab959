//! Results of assembling.

ghost use Rattle.std.specs.Prelude.{◌≡◌};
ghost use Rattle.proof_container.specs.Views.{IsWritable, view_contents};

use proof_container::{Head, View};
use std::marker::Model;
use term_table::{Id, Table};

/// The contents of a container that holds an assembled source for a policy. Contracts see the
/// contents.
#[derive(Drop)]
pub struct Assembled {
    pub(crate) version: u32,
    pub(crate) head: Head,
    pub(crate) bound: Option<u32>,
    pub(crate) code: Vec<u8>,
    pub(crate) table: Table,
    pub(crate) invs: Vec<(u32, Id)>,
}

impl Model for Assembled {
    ghost use Rattle.proof_container.specs.Contents.{Contents};
    ghost use Rattle.pcc_asm.specs.Inside.Held.{held_contents, IsWritableContents};

    ghost Value = { Contents };

    ghost use Rattle.std.specs.Coded.{codes};
    ghost use Rattle.term_table.specs.Inside.Code.{tree_code};

    ghost coded = { Prim.hlevel (codes, tree_code) };

    ghost view = { λ a. held_contents a.version a.head a.bound a.code.items a.table
        a.invs.items };

    ghost invariant = { λ a. IsWritableContents a.table a.invs.items
        (held_contents a.version a.head a.bound a.code.items a.table a.invs.items) };
}

impl Assembled {
    /// Returns a borrowed view of the contents, which `proof_container::write` encodes.
    pub fn view(&self) -> View<'_>
        ensures shows { view_contents result ≡ self.now }
        ensures writable { IsWritable result }
    {
        View {
            version: self.version,
            head: self.head,
            bound: self.bound,
            code: &self.code,
            table: &self.table,
            invs: &self.invs,
            lemmas: &[],
            proof: None,
        }
    }
}

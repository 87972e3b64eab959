//! Containers, and views of them.

ghost use Rattle.proof_container.specs.Views.{Shows};

use term_table::{Id, Table};

/// The header field that names the policy that the code is for.
#[derive(Clone, Copy, Debug, PartialEq, Eq)]
pub enum Head {
    /// The policy's number, in version 1.
    Number(u32),
    /// The digest of the policy's text, in versions 2 to 4.
    Digest([u8; 32]),
}

/// Code with its invariants, its lemmas and, if it has one, its proof. The code is a slice of the
/// bytes that were read.
#[derive(Drop)]
pub struct Container<'b> {
    /// The version, from 1 to `MAX_VERSION`.
    pub version: u32,
    /// The header field that names the policy that the code is for.
    pub head: Head,
    /// The step bound of the code, from 1 to `MAX_BOUND`, in version 3; else None.
    pub bound: Option<u32>,
    /// The instruction words of the code, of four bytes each.
    pub code: &'b [u8],
    /// The terms of the invariants, of the lemmas and of the proof.
    pub table: Table,
    /// The cut points, as instruction indices, each with its invariant.
    pub invs: Vec<(u32, Id)>,
    /// The lemmas, each a formula and its proof: at most `MAX_LEMMAS`, and none but in version 4.
    pub lemmas: Vec<(Id, Id)>,
    /// The term of the proof, if there is one.
    pub proof: Option<Id>,
}

/// A container whose fields are borrowed.
#[derive(Clone, Copy)]
pub struct View<'v> {
    /// The version, from 1 to `MAX_VERSION`.
    pub version: u32,
    /// The header field that names the policy that the code is for.
    pub head: Head,
    /// The step bound of the code, from 1 to `MAX_BOUND`, in version 3; else None.
    pub bound: Option<u32>,
    /// The instruction words of the code, of four bytes each.
    pub code: &'v [u8],
    /// The terms of the invariants, of the lemmas and of the proof.
    pub table: &'v Table,
    /// The cut points, as instruction indices, each with its invariant.
    pub invs: &'v [(u32, Id)],
    /// The lemmas, each a formula and its proof: at most `MAX_LEMMAS`, and none but in version 4.
    pub lemmas: &'v [(Id, Id)],
    /// The term of the proof, if there is one.
    pub proof: Option<Id>,
}

impl Container<'_> {
    /// Returns a view that borrows the container's fields.
    pub fn view(&self) -> View<'_>
        ensures shows { Shows self.now result }
    {
        View {
            version: self.version,
            head: self.head,
            bound: self.bound,
            code: self.code,
            table: &self.table,
            invs: &self.invs,
            lemmas: &self.lemmas,
            proof: self.proof,
        }
    }
}

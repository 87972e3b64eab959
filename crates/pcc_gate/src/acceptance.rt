//! Accepted code, and what acceptance promises.

ghost use Rattle.std.specs.Prelude.{◌≡◌};
ghost use Rattle.std.specs.List.{AllByRecursion};
ghost use Rattle.term_table.specs.Table.{IsKnown, id_trees};
ghost use Rattle.lf_signature.specs.Constants.{Longest};
ghost use Rattle.vcgen.specs.Encoded.{AreForms};
ghost use Rattle.vcgen.specs.Safety.{IsSafe};
ghost use Rattle.pcc_gate.specs.Safe.{ReturnsInBound};
ghost use Rattle.pcc_gate.specs.Views.{IsConditionTrue, AreAnnotations};

use alpha_cfg::Cut;
use policy_set::Policy;
use std::marker::Model;
use term_table::{Id, Table};

/// Code that was accepted under a policy. Contracts see the policy, the step bound, the code with
/// its flags, and the invariants as ids of the table.
#[derive(Drop)]
pub struct Accepted {
    pub(crate) policy: Policy,
    pub(crate) bound: Option<u32>,
    pub(crate) cut: Cut,
    pub(crate) table: Table,
    pub(crate) invs: Vec<(u32, Id)>,
}

impl Model for Accepted {
    ghost use Rattle.pcc_gate.specs.Views.{AcceptedView};
    ghost use Rattle.pcc_gate.specs.Inside.Acceptance.{IsProved};

    ghost Value = { AcceptedView };

    ghost use Rattle.std.specs.Coded.{codes};
    ghost use Rattle.term_table.specs.Table.{table_view_code};
    ghost use Rattle.policy_set.specs.Inside.Code.{form_code};

    ghost coded = { Prim.hlevel (codes, table_view_code, form_code) };

    ghost view = { λ a. record {
      policy = a.policy;
      bound = a.bound;
      code = a.cut.code;
      marks = a.cut.marks;
      table = a.table;
      invs = a.invs.items;
    } };

    ghost invariant = { λ a. IsProved a.policy a.bound a.cut a.table a.invs.items };
}

impl Accepted {
    /// Returns the policy that the code was accepted under.
    pub fn policy(&self) -> &Policy
        ensures { result.now ≡ self.now.policy }
    {
        &self.policy
    }

    /// Returns the step bound of the code, as its container gives it: `None` exactly if the
    /// container's version isn't 3. Allocates nothing.
    pub fn bound(&self) -> Option<u32>
        ensures { result ≡ self.now.bound }
    {
        self.bound
    }

    /// Returns the code with its cut points.
    pub fn cut(&self) -> &Cut
        ensures code { result.now.code ≡ self.now.code }
        ensures marks { result.now.marks ≡ self.now.marks }
    {
        &self.cut
    }

    /// Returns the table of the invariants' terms.
    pub fn table(&self) -> &Table
        ensures value { result.now ≡ self.now.table }
        ensures known { AllByRecursion (λ inv. IsKnown result.now inv.1) self.now.invs }
    {
        &self.table
    }

    /// Returns the cut points, as instruction indices, each with its invariant, an id of the table.
    pub fn invs(&self) -> &[(u32, Id)]
        ensures { result.now ≡ self.now.invs }
    {
        &self.invs
    }

    /// States what acceptance promises; runs nothing. The code is safe for the policy, and if its
    /// steps are bounded, it returns within the bound. The invariants encode formulas, which
    /// annotate the code. The verification condition of the policy, the bound, the code and these
    /// formulas is true in every structure.
    pub fn laws(&self)
        ensures safe { IsSafe self.now.code self.now.policy.pre self.now.policy.post }
        ensures returns { ReturnsInBound self.now.policy self.now.bound self.now.code }
        ensures forms { AreForms Longest self.now.bound (id_trees self.now.table self.now.invs) }
        ensures annotates { AreAnnotations self.now }
        ensures valid { IsConditionTrue self.now }
    {
        let _ = &self.cut; // opens the invariant for the prover
    }
}

//! The signatures of word arithmetic, and the editions: what each version of containers stands for.
//!
//! A new version is a row here and a row in `specs/Editions`; the crates above go by the fields.

ghost use Rattle.std.specs.Prelude.{◌≡◌, ◌≤◌};
ghost use Rattle.term_table.specs.Table.{counts_of};
ghost use Rattle.lf_signature.specs.declared.numbers.TheConstants.{COUNT};
ghost use Rattle.lf_signature.specs.Constants.{size_of, operators_of, op_count_of, places_of, op_in};
ghost use Rattle.lf_signature.specs.Editions.{edition_of};

use crate::numbers::{COUNT, SUB_LO, XOR};
use crate::tables::parameter_counts;
use term_table::Places;
use word_ops::{Op, Profile, op_count, op_of};

/// A signature of word arithmetic: the first numbered constants of the table, the 64-bit words, and
/// the evaluations of operators and relations at two words. It stores no ids.
#[derive(Clone, Copy, Debug, PartialEq, Eq)]
pub enum WordSignature {
    /// The first operators with their rules.
    Sigma1,
    /// The later operators and their rules too.
    Sigma2,
    /// The rule `sub_lo` too.
    Sigma3,
}

/// The longest signature, over which terms are read that no version of containers is known of.
pub const LONGEST: WordSignature = WordSignature::Sigma3;

impl WordSignature {
    /// Returns how many numbered constants there are.
    pub fn count(self) -> u32
        ensures exact { result ≡ size_of self }
        ensures below { result ≤ COUNT }
    {
        match self {
            WordSignature::Sigma1 => XOR,
            WordSignature::Sigma2 => SUB_LO,
            WordSignature::Sigma3 => COUNT,
        }
    }

    /// Returns the profile whose operators the signature has.
    pub fn operators(self) -> Profile
        ensures { result ≡ operators_of self }
    {
        match self {
            WordSignature::Sigma1 => Profile::One,
            WordSignature::Sigma2 => Profile::Two,
            WordSignature::Sigma3 => Profile::Two,
        }
    }

    /// Returns how many parameters each numbered constant has; weights go by these counts.
    pub fn places(self) -> Places
        ensures { counts_of result ≡ places_of self }
    {
        Places::of(&parameter_counts()[..self.count() as usize])
    }

    /// How many operators there are.
    fn op_count(self) -> u32
        ensures { result ≡ op_count_of self }
    {
        op_count(self.operators())
    }

    /// Returns the operator that evaluations name by `number`: None if the signature has no such
    /// operator.
    pub fn op(self, number: u32) -> Option<Op>
        ensures { result ≡ op_in self number }
    {
        if number < self.op_count() {
            op_of(number)
        } else {
            None
        }
    }
}

/// The greatest version; there are all from 1 on.
pub const MAX_VERSION: u32 = 4;

/// What a version of containers stands for.
#[derive(Clone, Copy, Debug, PartialEq, Eq)]
pub struct Edition {
    /// The version.
    pub version: u32,
    /// The profile of the code.
    pub profile: Profile,
    /// The signature that terms are over, by whose parameters proofs weigh.
    pub signature: WordSignature,
    /// Whether a number names the policy; else a digest does.
    pub is_numbered: bool,
    /// Whether steps are bounded.
    pub is_bounded: bool,
    /// Whether there are lemmas.
    pub has_lemmas: bool,
}

/// The edition of version 2, which a number that is no version has too.
const OTHER: Edition = Edition {
    version: 2,
    profile: Profile::Two,
    signature: WordSignature::Sigma2,
    is_numbered: false,
    is_bounded: false,
    has_lemmas: false,
};

/// All editions, in the order of their versions.
pub const EDITIONS: [Edition; 4] = [
    Edition {
        version: 1,
        profile: Profile::One,
        signature: WordSignature::Sigma1,
        is_numbered: true,
        is_bounded: false,
        has_lemmas: false,
    },
    OTHER,
    Edition {
        version: 3,
        profile: Profile::Two,
        signature: WordSignature::Sigma3,
        is_numbered: false,
        is_bounded: true,
        has_lemmas: false,
    },
    Edition {
        version: 4,
        profile: Profile::Two,
        signature: WordSignature::Sigma2,
        is_numbered: false,
        is_bounded: false,
        has_lemmas: true,
    },
];

/// Returns the edition of a version. A number past `MAX_VERSION`, or 0, has that of version 2;
/// under it nothing is read or written.
pub fn edition_of(version: u32) -> Edition
    ensures exact { result ≡ edition_of version }
{
    EDITIONS
        .iter()
        .copied()
        .find(|edition| edition.version == version)
        .unwrap_or(OTHER)
}

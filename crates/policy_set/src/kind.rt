//! The table of the kinds of policies: number, name, and whether result lines have a sum.
//!
//! A new kind is a row here, a row in `specs/Policies`, and its formulas (`formulas`).

ghost use Rattle.std.specs.Prelude.{◌≡◌, ◌==◌};
ghost use Rattle.std.specs.Str.{bytes_eq};
ghost use Rattle.policy_set.specs.Names.{kind_number, kind_name, kind_of, kind_numbered};
ghost use Rattle.policy_set.specs.Policies.{kind_has_sum};

/// The kind of a built-in policy, by its name.
#[derive(Clone, Copy, Debug, PartialEq, Eq)]
pub enum PolicyKind {
    /// Reads a packet and scratch memory, writes scratch memory, and returns 0 or 1.
    Filter,
    /// Reads two quadwords, and writes the second if the first isn't 0.
    Tag,
    /// Reads and writes a table of quadwords.
    Table,
}

/// All kinds, in the order of their numbers.
const KINDS: [PolicyKind; 3] = [PolicyKind::Filter, PolicyKind::Tag, PolicyKind::Table];

/// The number and name of a kind, and whether result lines show the sum of the start's region.
#[derive(Clone, Copy)]
struct Row(u32, &'static str, bool);

impl PolicyKind {
    /// Returns the kind's row of the table.
    fn row(self) -> Row
        ensures number { result.0 ≡ kind_number self }
        ensures name { result.1.now ≡ kind_name self }
        ensures has_sum { result.2 ≡ kind_has_sum self }
    {
        match self {
            PolicyKind::Filter => Row(1, "filter", false),
            PolicyKind::Tag => Row(2, "tag", true),
            PolicyKind::Table => Row(3, "table", true),
        }
    }

    /// Returns the number that containers carry: 1 for `filter`, 2 for `tag`, 3 for `table`.
    pub fn number(self) -> u32
        ensures { result ≡ kind_number self }
    {
        self.row().0
    }

    /// Returns the name.
    pub fn name(self) -> &'static str
        ensures { result.now ≡ kind_name self }
    {
        self.row().1
    }

    /// Checks whether result lines show the sum of the start's region.
    pub fn has_sum(self) -> bool
        ensures { result ≡ kind_has_sum self }
    {
        self.row().2
    }

    /// Checks whether `text` is the kind's name.
    fn has_name(self, text: &[u8]) -> bool
        ensures { result ≡ bytes_eq text.now (kind_name self) }
    {
        text == self.name().as_bytes()
    }

    /// Returns the kind with this name, or None if no kind has it.
    pub fn named(text: &[u8]) -> Option<PolicyKind>
        ensures { result ≡ kind_of text.now }
    {
        KINDS.iter().copied().find(|kind| kind.has_name(text))
    }

    /// Returns the kind with this number, or None if no kind has it.
    pub fn numbered(number: u32) -> Option<PolicyKind>
        ensures { result ≡ kind_numbered number }
    {
        KINDS.iter().copied().find(|kind| kind.number() == number)
    }
}

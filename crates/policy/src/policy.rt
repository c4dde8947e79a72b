// A policy as a value: its words in a table.
pub mod making;

ghost use Rattle.std.specs.Prelude.{◌≤◌, take};
ghost use Rattle.policy.specs.Proper.{Written};

use crate::entry::Entry;

// A policy, of fixed size, since it is `Copy` and allocates nothing. What formula it is the policy of
// (`Means`) is told by its calls and is no model: that would be the table read back into a tree.
// The first `len` entries of its table are those of one formula, which is closed and
// anchored, and each number is one that a name, a label or a mark can have.
#[derive(Clone, Copy)]
pub struct Policy {
    table: [Entry; 64],
    len: usize,
    ghost fits: { len ≤ 64 },
    ghost whole: { ∥ Written (take len table) ∥₁ },
}

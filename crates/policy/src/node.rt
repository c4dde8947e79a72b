// Words of a table, each the first of a formula.
ghost use Rattle.std.specs.Prelude.{◌≤◌, length};
ghost use Rattle.policy_words.specs.Tree.{Formula};
ghost use Rattle.policy.specs.Table.{Stands};

use crate::entry::Entry;

// The word at the place `at` of a table, from which on a formula stands there. Which formula that is each
// method's clause asks: as a model of the node it would be the table read back into a tree.
#[derive(Clone, Copy)]
pub struct Node<'a> {
    pub table: &'a [Entry],
    pub at: usize,
    ghost few: { length table.now ≤ 64 },
    ghost formula: { ∥ ((f : Formula) × Stands table.now at f) ∥₁ },
}

// The operands of a word that are formulas, by their first words. There are two at most, and a list of
// options would say it less plainly.
#[derive(Clone, Copy)]
pub enum Operands<'a> {
    Leaf,
    One(Node<'a>),
    Two(Node<'a>, Node<'a>),
}

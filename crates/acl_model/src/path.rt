//! Paths: the subset of XPath 1.0 by which rules select elements.

use crate::sequence::{Bytes, Name, Sequence};

/// An absolute location path (XPath 1.0, 2). Its first step begins at a virtual root above the document.
#[derive(Debug, Drop)]
pub struct Path {
    pub steps: Sequence<Step>,
}

/// One step (XPath 1.0, 2.1).
#[derive(Debug, Drop)]
pub struct Step {
    pub axis: Axis,
    pub test: Test,
    pub preds: Sequence<Pred>,
}

/// The axis of a step (XPath 1.0, 2.2).
#[derive(Debug, Clone, Copy, PartialEq, Eq)]
pub enum Axis {
    /// `/`: to the children.
    Child,
    /// `//`: to all proper descendants.
    Descendant,
}

/// The name test of a step (XPath 1.0, 2.3).
#[derive(Debug, Drop)]
pub enum Test {
    /// `*`
    Any,
    Named(Name),
}

/// A predicate (XPath 1.0, 2.4). It is true for a context node if some value that it reaches from there satisfies its
/// comparison.
#[derive(Debug, Drop)]
pub struct Pred {
    /// The steps of the predicate's path, which lead to its targets. Without a step, the context node is the only
    /// target.
    pub way: Sequence<PredStep>,
    /// The attribute of the targets whose values are compared; without one, the targets' string-values are.
    pub attribute: Option<Name>,
    /// The comparison. Without one, any value makes the predicate true.
    pub cmp: Option<Cmp>,
}

/// A step of a predicate's path.
#[derive(Debug, Drop)]
pub struct PredStep {
    pub axis: Axis,
    pub test: Test,
}

/// A comparison of each value with an operand (a profile of XPath 1.0, 3.4).
#[derive(Debug, Drop)]
pub struct Cmp {
    pub op: Op,
    pub operand: Operand,
}

/// `=`, `!=`, `<`, `<=`, `>` and `>=`.
#[derive(Debug, Clone, Copy, PartialEq, Eq)]
pub enum Op {
    Eq,
    Ne,
    Lt,
    Le,
    Gt,
    Ge,
}

/// What a value is compared with.
#[derive(Debug, Drop)]
pub enum Operand {
    /// A literal.
    Text(Bytes),
    /// A whole number of 1 to 18 digits.
    Number(i64),
    /// The bytes of the licence's user, where the path had `USER`.
    User(Bytes),
}

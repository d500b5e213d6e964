//! The states of the machine that reads a path: the steps so far, the step that is open, and the
//! position in a predicate of that step. A step is *open* while more of its bytes may come. A *way*
//! is the path of a predicate, relative to the context node.

use crate::quote::Quote;
use acl_model::{Bytes, Cmp, Name, Op, Pred, PredStep, Sequence, Step};

/// The position in a path.
#[derive(Drop)]
pub enum State {
    /// Before the first byte.
    Start,
    /// After the first slash of a step.
    AfterSlash(Sequence<Step>),
    /// After `//`.
    AfterSlashes(Sequence<Step>),
    /// After a step's test, whose name may continue, or after one of its predicates.
    InStep(Level),
    /// In a predicate of a step.
    InPredicate(Level, Inside),
}

/// The steps before the open one, and the open one.
#[derive(Drop)]
pub struct Level {
    pub done: Sequence<Step>,
    pub step: Step,
}

/// The position in a predicate.
#[derive(Drop)]
pub enum Inside {
    /// After `[` and any number of spaces.
    Open,
    /// Directly after `.`.
    Dot,
    /// After `./`.
    DotSlash,
    /// Directly after a test of a way, whose name may continue.
    InWay(WayLevel),
    /// After a way and one slash.
    WaySlash(Sequence<PredStep>),
    /// After a way and `//`, or after `.//`.
    WaySlashes(Sequence<PredStep>),
    /// After the `@` of the attribute.
    AfterAt(Sequence<PredStep>),
    /// In the attribute's name, which may continue.
    InAttribute(Sequence<PredStep>, Name),
    /// After a body and at least one space.
    AfterBody(Body),
    /// After `!`.
    Exclamation(Body),
    /// After `<`.
    Less(Body),
    /// After `>`.
    Greater(Body),
    /// After a comparison operator, before its operand.
    AfterSign(Compared),
    /// In a literal.
    InLiteral(Compared, Quote, Bytes),
    /// After `-`.
    Minus(Compared),
    /// In a number.
    InNumber(Compared, Digits),
    /// After `U`.
    LetterU(Compared),
    /// After `US`.
    LettersUs(Compared),
    /// After `USE`.
    LettersUse(Compared),
    /// After an operand and any number of spaces.
    AfterOperand(Pred),
}

/// The steps of a way before the open one, and the open one.
#[derive(Drop)]
pub struct WayLevel {
    pub done: Sequence<PredStep>,
    pub step: PredStep,
}

/// The body of a predicate: its path and its attribute, if it has one.
#[derive(Drop)]
pub struct Body {
    pub way: Sequence<PredStep>,
    pub attribute: Option<Name>,
}

/// The body of a predicate and the comparison operator after it.
#[derive(Drop)]
pub struct Compared {
    pub body: Body,
    pub op: Op,
}

/// The digits of a number so far.
#[derive(Clone, Copy)]
pub struct Digits {
    pub negative: bool,
    pub count: u32,
    pub value: u64,
}

/// The result of a byte in a predicate.
#[derive(Drop)]
pub enum Next {
    /// The predicate goes on.
    More(Inside),
    /// This byte was its last.
    Whole(Pred),
}

//! Plans, and what becomes of them.

use crate::{NodeFault, NodePush};
use cs_conflict::Wish;
use cs_pending::EditFault;
use cs_value::{Edit, Items};

/// One call of a node. Wishes are used one a clash in their order: `Take` where they have run out, and each made lawful.
#[derive(Drop)]
pub enum Step {
    /// A row is edited.
    Edit(Edit),
    /// The entries that are there are pulled, by these wishes.
    Pull(Items<Wish>),
    /// What is pending is pushed, and the entry of its cell pulled, by these wishes.
    Push(Items<Wish>),
}

/// What a node does, call by call.
pub type Plan = Items<Step>;

/// What a call came to. What was done before a fault stays.
#[derive(Drop)]
pub enum StepOutcome {
    /// The edit was made.
    Edited,
    /// The edit was refused, and nothing has changed.
    NotEdited(EditFault),
    /// So many entries were pulled.
    Pulled(usize),
    /// What became of the push.
    Pushed(NodePush),
    /// The pull or the push ended with this fault.
    Failed(NodeFault),
}

/// How a node stood after a call.
#[derive(Clone, Copy, Debug, PartialEq, Eq)]
pub struct Mark {
    /// How many entries its pass knew.
    pub known: usize,
    /// The version that its replica had come to.
    pub version: u64,
    /// Whether the call made a push, so that the number of the last push is another.
    pub made: bool,
}

/// What a call came to, and how the node stood after it.
#[derive(Drop)]
pub struct Stepped {
    /// What the call came to.
    pub outcome: StepOutcome,
    /// How the node stood then.
    pub mark: Mark,
}

/// Whoever watches a node's calls, from within its thread. Calls are numbered from 0.
pub trait Port {
    /// Is told before a call, which isn't made until this returns.
    fn before(&mut self, call: usize);

    /// Is told after a call.
    fn after(&mut self, call: usize);
}

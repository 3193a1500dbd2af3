//! What all sessions and workers share.
use left_right::Absorb;
use pol_board_view::{Face, FaceOp};
use pol_hints::{Gate, Hints};
use pol_node::{Node, NodeName};
use std::sync::Wait;

/// A node that is played over: with the queue of hints for its slots, the gate that sessions and workers pass, and how many
/// workers regenerate its slots beside the sessions.
#[derive(Drop)]
pub struct NodeInPlay<'a, N: NodeName, R: Wait + Drop, G: Gate>
where
    Face<N>: Absorb<FaceOp<N>>,
{
    pub node: &'a Node<N, R>,
    pub hints: &'a Hints,
    pub gate: &'a G,
    pub workers: u32,
}

//! The operations of the script.
ghost use Rattle.std.specs.Prelude.{◌≡◌};
ghost use Rattle.pol_script.specs.Forms.{word_among};
ghost use Rattle.pol_script.specs.Table.{ops};

/// What a line asks for, by its member `op`.
#[derive(Clone, Copy)]
pub(crate) enum Op {
    /// A new endpoint.
    Endpoint,
    /// An endpoint goes.
    RemoveEndpoint,
    /// A new named identity.
    Identity,
    /// A named identity goes.
    RemoveIdentity,
    /// A policy is placed.
    Apply,
    /// A policy goes.
    Delete,
    /// The mode from now on.
    Mode,
    /// A verdict on a packet.
    Verdict,
    /// A verdict on a packet, and the reasons for it.
    Trace,
    /// Every live endpoint's map is brought up to date.
    Sync,
    /// The end of a phase.
    Phase,
}

/// The operation that the text names.
pub(crate) fn op_named(text: &str) -> Option<Op>
    ensures { result ≡ word_among ops text.now }
{
    match text {
        "endpoint" => Some(Op::Endpoint),
        "remove-endpoint" => Some(Op::RemoveEndpoint),
        "identity" => Some(Op::Identity),
        "remove-identity" => Some(Op::RemoveIdentity),
        "apply" => Some(Op::Apply),
        "delete" => Some(Op::Delete),
        "mode" => Some(Op::Mode),
        "verdict" => Some(Op::Verdict),
        "trace" => Some(Op::Trace),
        "sync" => Some(Op::Sync),
        "phase" => Some(Op::Phase),
        _ => None,
    }
}

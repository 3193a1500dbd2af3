//! What the tests commit.
ghost use Rattle.std.specs.Prelude.{◌≡◌, true};
ghost use Rattle.pol_history.specs.Meet.{has};

use pol_addr::Addr;
use pol_data::{Memory, Steps, Text};
use pol_labels::{Label, LabelSet};
use pol_model::{Query, Remote, Request};
use pol_node::{Node, NodeName, Pass};
use pol_ports::{Direction, Proto};
use std::alloc::Global;
use std::sync::Wait;
use std::sync::ledger::Ledger;

const NAMESPACE: &str = "k8s:io.kubernetes.pod.namespace=default";

fn labels(alloc: Global) -> Option<LabelSet> {
    let mut labels = Vec::new(alloc);
    labels.push(Label::parse(alloc, NAMESPACE).ok()?).ok()?;
    LabelSet::from_labels(alloc, labels).ok()
}

/// An endpoint `a` of the namespace `default`, with the address 10.0.0.1.
pub(crate) fn endpoint(alloc: Global) -> Result<Request, Memory> {
    let Some(labels) = labels(alloc) else {
        return Err(Memory);
    };
    Ok(Request::AddEndpoint {
        name: Text::from_str(alloc, "a")?,
        labels,
        address: Addr::from_octets(10, 0, 0, 1),
    })
}

/// What is asked again and again: TCP to port 80 of the endpoint `a` from outside the cluster.
pub(crate) fn query(alloc: Global) -> Result<Query, Memory> {
    Ok(Query {
        endpoint: Text::from_str(alloc, "a")?,
        dir: Direction::Ingress,
        remote: Remote::Identity(2),
        proto: Proto::Tcp,
        port: 80,
    })
}

/// Commits the request, and tells the revision. A refusal is want of memory here.
pub(crate) fn commit<N: NodeName, W: Wait, R: Wait + Drop, L: Ledger>(
    rt: &W,
    alloc: Global,
    node: &Node<N, R>,
    pass: &mut Pass<N>,
    request: Request,
    steps: &mut Steps<L>,
) -> Result<u64, Memory>
    requires handed_out { has N.passes pass.old.number ≡ true }
    ensures number { pass.new.number ≡ pass.old.number }
{
    if !request.is_short() {
        drop(request);
        return Err(Memory);
    }
    match node.commit(rt, alloc, pass, request, steps) {
        Ok(done) => Ok(done.revision),
        Err(_) => Err(Memory),
    }
}

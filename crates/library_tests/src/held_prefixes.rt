//! The prefixes of a policy, with ample memory.

use pol_addr::Prefix;
use pol_data::{Items, Memory, Text};
use pol_labels::Selector;
use pol_rule::{Entries, Entry, Peer, Peers, Policy, PolicyKey, Rule};
use std::alloc::Global;
use std::test::Fail;

fn prefix(text: &str) -> Result<Prefix, Fail> {
    Ok(Prefix::parse(text).ok_or("no prefix")?)
}

fn one<T: Drop>(alloc: Global, item: T) -> Result<Items<T>, Memory> {
    let mut list = Vec::with_capacity(alloc, 1)?;
    list.push(item)?;
    Ok(Items::from_vec(list))
}

/// One entry, of the peers in a prefix but those in another.
fn entries(alloc: Global, within: &str, without: &str) -> Result<Entries, Fail> {
    let peer = Peer::Cidr {
        prefix: prefix(within)?,
        except: one(alloc, prefix(without)?)?,
    };
    let entry = Entry {
        peers: Peers::Listed(one(alloc, peer)?),
        ports: Items::from_vec(Vec::new(alloc)),
    };
    Ok(one(alloc, entry)?)
}

fn policy(alloc: Global) -> Result<Policy, Fail> {
    let everyone = Selector::from_requirements(alloc, Vec::new(alloc))?;
    let mut rule = Rule::new(alloc, everyone);
    rule.ingress = entries(alloc, "10.0.0.0/8", "10.1.0.0/16")?;
    rule.egress = entries(alloc, "0.0.0.0/0", "10.0.0.0/8")?;
    rule.egress_deny = entries(alloc, "10.1.0.0/16", "10.1.2.0/24")?;
    Ok(Policy {
        key: PolicyKey {
            cluster_wide: true,
            namespace: Text::from_str(alloc, "")?,
            name: Text::from_str(alloc, "p")?,
        },
        rules: one(alloc, rule)?,
    })
}

#[test]
fn each_prefix_of_a_policy_is_named_once(rt: HostRuntime) -> Result<(), Fail> {
    let prefixes = policy(rt.alloc())?.prefixes(rt.alloc())?;
    let wanted = [
        prefix("10.0.0.0/8")?,
        prefix("10.1.0.0/16")?,
        prefix("0.0.0.0/0")?,
        prefix("10.1.2.0/24")?,
    ];
    assert!(rt; prefixes.as_slice() == wanted.as_slice());
    Ok(())
}

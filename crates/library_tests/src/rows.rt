//! Rows of the state that are made and copied, with ample memory.

use pol_addr::{Addr, Family, Prefix};
use pol_data::{Items, Text};
use pol_labels::LabelSet;
use pol_model::{Endpoint, IdentityRow, NamedIdentity, Stamped, reserved_rows};
use pol_rule::{Policy, PolicyKey};
use std::test::Fail;

/// Whether the row has the one label `reserved:NAME`.
fn is_named(row: &IdentityRow, name: &str) -> bool {
    row.labels.carries_parts("reserved", name, "") && row.labels.len() == 1
}

#[test]
fn reserved_rows_have_their_names_and_the_world_its_prefix(rt: HostRuntime) -> Result<(), Fail> {
    let rows = reserved_rows(rt.alloc())?;
    let names = [
        "host",
        "world",
        "unmanaged",
        "health",
        "init",
        "remote-node",
        "kube-apiserver",
        "ingress",
        "world-ipv4",
        "world-ipv6",
    ];
    assert_eq!(rt; rows.len(), names.len());
    for (row, name) in rows.iter().zip(names) {
        assert!(rt; is_named(row, name), "{name}");
        assert_eq!(rt;
            row.prefix == Some(Prefix::world(Family::Ipv4)),
            name == "world-ipv4"
        );
        assert_eq!(rt;
            row.prefix == Some(Prefix::world(Family::Ipv6)),
            name == "world-ipv6"
        );
    }
    Ok(())
}

#[test]
fn a_row_of_a_prefix_is_copied(rt: HostRuntime) -> Result<(), Fail> {
    let prefix = Prefix::parse("10.0.0.0/8").ok_or("no prefix")?;
    let row = IdentityRow::of_prefix(rt.alloc(), prefix, 16_777_217)?.copy(rt.alloc())?;
    assert!(rt; is_named(&row, "world-ipv4"));
    assert!(rt; row.prefix == Some(prefix));
    assert_eq!(rt; row.number, 16_777_217);
    Ok(())
}

#[test]
fn rows_with_names_are_copied(rt: HostRuntime) -> Result<(), Fail> {
    let alloc = rt.alloc();
    let endpoint = Endpoint {
        name: Text::from_str(alloc, "web")?,
        slot: 3,
        added: 7,
        labels: LabelSet::from_labels(alloc, Vec::new(alloc))?,
        identity: 256,
        address: Addr::from_octets(10, 0, 0, 1),
    };
    assert!(rt; endpoint.copy(alloc)?.name.as_str() == "web");
    let named = NamedIdentity {
        name: Text::from_str(alloc, "i")?,
        number: 257,
    };
    assert!(rt; named.copy(alloc)?.name.as_str() == "i");
    let key = PolicyKey {
        cluster_wide: true,
        namespace: Text::from_str(alloc, "")?,
        name: Text::from_str(alloc, "p")?,
    };
    let policy = Policy {
        key,
        rules: Items::from_vec(Vec::new(alloc)),
    };
    let stamped = Stamped { policy, stamp: 4 };
    assert_eq!(rt; stamped.copy(alloc)?.stamp, 4);
    Ok(())
}

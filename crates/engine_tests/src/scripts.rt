//! A script with ample memory.

use pol_gen::generated;
use std::test::Fail;

#[test]
fn a_script_is_generated(rt: HostRuntime) -> Result<(), Fail> {
    let script = generated(rt.alloc(), 1)?;
    assert!(rt;
        script.starts_with(b"{\"op\":\"endpoint\",\"name\":\"e0\",\"labels\":[\"k8s:app=a6\",")
    );
    Ok(())
}

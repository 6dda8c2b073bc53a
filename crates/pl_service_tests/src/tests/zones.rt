use pl_base::Text;
use pl_zones::zone_of;
use std::test::Fail;

// That threads may share a value.
fn may_be_shared<T: Send + Sync>(_value: &T) {}

/// Threads share the zones of checks.
#[test]
fn threads_may_share_a_zone(rt: HostRuntime) -> Result<(), Fail> {
    let text = Text::from_str(rt.alloc(), "CET-1CEST,M3.5.0,M10.5.0/3")?;
    match zone_of(rt.alloc(), &text) {
        Ok(zone) => may_be_shared(&zone),
        Err(_) => assert!(rt; false),
    }
    Ok(())
}

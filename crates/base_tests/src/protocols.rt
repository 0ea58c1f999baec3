//! Which rule decides for which protocol.

use listing::Text;
use protocol_acl::{NameList, ProtocolAcl, ProtocolRule, ProtocolRuleList};
use std::alloc::Global;
use std::test::Fail;

// the rule of these names
fn rule(alloc: Global, names: &[&str], allow: bool) -> Result<ProtocolRule, Fail> {
    let mut protocols = NameList::new(alloc);
    for name in names {
        protocols.push(Text::of(alloc, name.as_bytes())?)?;
    }
    Ok(ProtocolRule { protocols, allow })
}

#[test]
fn protocols_of_rules(rt: HostRuntime) -> Result<(), Fail> {
    let alloc = rt.alloc();
    let mut rules = ProtocolRuleList::new(alloc);
    rules.push(rule(alloc, &[], true)?)?;
    rules.push(rule(alloc, &["https/1.1", "H2"], true)?)?;
    rules.push(rule(alloc, &["http/1.1", "https/1.1"], false)?)?;
    let acl = ProtocolAcl::new(Some(rules)).expect(&rt, "few rules");
    for (protocol, answer) in [
        ("http/1.1", (false, Some(3))),
        ("HTTP/1.1", (false, Some(3))),
        ("https/1.1", (true, Some(2))),
        ("Https/1.1", (true, Some(2))),
        ("h2", (true, Some(2))),
        ("h", (false, None)),
        ("h23", (false, None)),
        ("http/1.0", (false, None)),
        ("", (false, None)),
    ] {
        assert_eq!(rt; acl.decide(protocol.as_bytes()), answer, "{protocol}");
    }
    Ok(())
}

#[test]
fn absent_and_empty_rules(rt: HostRuntime) -> Result<(), Fail> {
    let alloc = rt.alloc();
    let absent = ProtocolAcl::new(None).expect(&rt, "no rules");
    assert_eq!(rt; absent.decide(b"http/1.1".as_slice()), (true, None));
    let none = ProtocolAcl::new(Some(ProtocolRuleList::new(alloc))).expect(&rt, "few rules");
    assert_eq!(rt; none.decide(b"http/1.1".as_slice()), (false, None));
    Ok(())
}

//! Advertisements.

use cdni_log::{default_fields, read_fields};
use footprints::{AdvertSettings, advert};
use listing::{Listing, Text, TextList};
use std::alloc::{AllocError, Global};
use std::test::Fail;
use targets::Protocol;

fn texts_of(alloc: Global, texts: &[&str]) -> Result<TextList, AllocError> {
    let mut list: TextList = Listing::new(alloc);
    for text in texts {
        list.push(Text::of(alloc, text.as_bytes())?)?;
    }
    Ok(list)
}

// whether the advertisement of this protocol, these footprints and the usual fields is this text
fn is_advert(
    alloc: Global,
    protocol: Protocol,
    footprints: &[&str],
    expected: &str,
) -> Result<bool, Fail> {
    let footprints = texts_of(alloc, footprints)?;
    let fields = default_fields(alloc)?;
    let settings = AdvertSettings::new(protocol, footprints, fields).ok_or("no footprint")?;
    Ok(advert(alloc, &settings)?.is(expected.as_bytes()))
}

#[test]
fn an_advertisement_is_written(rt: HostRuntime) -> Result<(), Fail> {
    let expected = concat!(
        r#"{"capabilities":[{"capability-type":"FCI.DeliveryProtocol","capability-value":"#,
        r#"{"delivery-protocols":["http/1.1"]},"footprints":[{"footprint-type":"countrycode","#,
        r#""footprint-value":["us"]}]},{"capability-type":"FCI.AcquisitionProtocol","#,
        r#""capability-value":{"acquisition-protocols":["http/1.1"]},"footprints":["#,
        r#"{"footprint-type":"countrycode","footprint-value":["us"]}]},{"capability-type":"#,
        r#""FCI.Logging","capability-value":{"fields":["sc-entity-bytes","s-ccid","s-cached"],"#,
        r#""record-type":"cdni_http_request_v1"},"footprints":[{"footprint-type":"countrycode","#,
        r#""footprint-value":["us"]}]},{"capability-type":"FCI.Metadata","capability-value":"#,
        r#"{"metadata":["MI.SourceMetadata","MI.LocationACL","MI.TimeWindowACL","#,
        r#""MI.ProtocolACL","MI.Cache","MI.Grouping"]},"footprints":[{"footprint-type":"#,
        r#""countrycode","footprint-value":["us"]}]}]}"#,
    );
    assert!(rt; is_advert(rt.alloc(), Protocol::Http, &["countrycode:us"], expected)?);
    Ok(())
}

#[test]
fn no_footprints_are_left_out(rt: HostRuntime) -> Result<(), Fail> {
    let expected = concat!(
        r#"{"capabilities":[{"capability-type":"FCI.DeliveryProtocol","capability-value":"#,
        r#"{"delivery-protocols":["https/1.1"]}},{"capability-type":"FCI.AcquisitionProtocol","#,
        r#""capability-value":{"acquisition-protocols":["http/1.1"]}},{"capability-type":"#,
        r#""FCI.Logging","capability-value":{"fields":["sc-entity-bytes","s-ccid","s-cached"],"#,
        r#""record-type":"cdni_http_request_v1"}},{"capability-type":"FCI.Metadata","#,
        r#""capability-value":{"metadata":["MI.SourceMetadata","MI.LocationACL","#,
        r#""MI.TimeWindowACL","MI.ProtocolACL","MI.Cache","MI.Grouping"]}}]}"#,
    );
    assert!(rt; is_advert(rt.alloc(), Protocol::Https, &[], expected)?);
    Ok(())
}

// whether the capability of logging has these fields, where log files have those
fn has_fields(alloc: Global, written: &str, shown: &str) -> Result<bool, Fail> {
    let Ok(fields) = read_fields(alloc, b',', written.as_bytes()) else {
        return Err(Fail::from("names"));
    };
    let settings = AdvertSettings::new(Protocol::Http, TextList::new(alloc), fields).ok_or(
        "no footprint",
    )?;
    let capability = format!(in alloc;
        r#","capability-value":{{"fields":[{shown}],"record-type":"#
    )?;
    let text = advert(alloc, &settings)?;
    let text = String::from_utf8(Vec::from_slice(alloc, text.bytes())?).map_err(|_| "UTF-8")?;
    Ok(text.as_str().contains(capability.as_str()))
}

#[test]
fn optional_fields_are_advertised(rt: HostRuntime) -> Result<(), Fail> {
    let alloc = rt.alloc();
    assert!(rt; has_fields(alloc, "date,sc-status", "")?);
    assert!(rt; has_fields(alloc, "sc-status,cs(user-agent)", r#""cs(user-agent)""#)?);
    let shown = r#""cs(b)","s-cached","cs(a)","sc-entity-bytes""#;
    assert!(rt; has_fields(alloc, "cs(B),s-cached,time,cs(a),sc-entity-bytes", shown)?);
    Ok(())
}

// whether these footprints of the first capability are shown, in this order and by these objects
fn are_shown(alloc: Global, footprints: &[&str], objects: &str) -> Result<bool, Fail> {
    let front = concat!(
        r#"{"capabilities":[{"capability-type":"FCI.DeliveryProtocol","capability-value":"#,
        r#"{"delivery-protocols":["http/1.1"]},"footprints":["#,
    );
    let expected = format!(in alloc; "{front}{objects}]}},")?;
    let footprints = texts_of(alloc, footprints)?;
    let fields = default_fields(alloc)?;
    let settings = AdvertSettings::new(Protocol::Http, footprints, fields).ok_or("no footprint")?;
    Ok(
        advert(alloc, &settings)?
            .bytes()
            .starts_with(expected.as_bytes()),
    )
}

// a footprint of each type (RFC 8006, section 4.2.2.2)
#[test]
fn footprints_of_each_type_are_shown(rt: HostRuntime) -> Result<(), Fail> {
    let footprints = [
        "ipv4cidr:192.0.2.0/24",
        "ipv6cidr:2001:db8::/32",
        "asn:as64496",
    ];
    let objects = concat!(
        r#"{"footprint-type":"ipv4cidr","footprint-value":["192.0.2.0/24"]},"#,
        r#"{"footprint-type":"ipv6cidr","footprint-value":["2001:db8::/32"]},"#,
        r#"{"footprint-type":"asn","footprint-value":["as64496"]}"#,
    );
    assert!(rt; are_shown(rt.alloc(), &footprints, objects)?);
    Ok(())
}

#[test]
fn other_texts_are_no_footprints(rt: HostRuntime) -> Result<(), Fail> {
    for text in [
        "",
        "us",
        "countrycode",
        "countrycode:",
        "countrycode:US",
        "country:us",
        ":us",
    ] {
        let footprints = texts_of(rt.alloc(), &["countrycode:us", text])?;
        let fields = default_fields(rt.alloc())?;
        assert!(rt;
            AdvertSettings::new(Protocol::Http, footprints, fields).is_none(),
            "{text}"
        );
    }
    Ok(())
}

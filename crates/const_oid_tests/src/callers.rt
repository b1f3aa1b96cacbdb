//! Tests of `examples`, without the modules `label` and `walk`: each function runs once.

use crate::vectors::parse;
use const_oid::db::{Database, SortedDatabase};
use const_oid::{AssociatedOid, Error, Oid};
use examples::algorithms::name_of;
use examples::schema::{Attribute, CommonName, Country, find, has_type};
use examples::subtree::is_under_any;
use examples::table::{ATTRIBUTE_TYPES, indexed, is_attribute_type};
use examples::theorems;
use std::test::Fail;

/// rsaEncryption (RFC 8017).
const RSA: [u8; 9] = [0x2A, 0x86, 0x48, 0x86, 0xF7, 0x0D, 0x01, 0x01, 0x01];

/// Whether rsaEncryption is written as an element and read again, with the octet after it.
fn is_read_again(rsa: Oid) -> bool {
    let mut out = [0; 12];
    match theorems::through_element(rsa.as_oid_ref(), &mut out) {
        Some(Some((Ok(oid), rest))) => oid.eq_oid(&rsa) && rest.len() == 1,
        _ => false,
    }
}

#[test]
fn rsa_and_enterprises_have_their_relatives(rt: HostRuntime) -> Result<(), Fail> {
    let rsa = theorems::rsa_encryption();
    assert!(rt; rsa.as_bytes() == RSA.as_slice() && theorems::is_rsa_encryption(&RSA));
    assert!(rt; theorems::parent_of_child(rsa, 1) == Ok(Some(rsa)));
    assert!(rt; theorems::child_of_parent(rsa) == Some(Ok(rsa)));
    assert!(rt; theorems::through_text(rt.alloc(), rsa)? == Ok(rsa));
    assert!(rt; is_read_again(rsa));
    assert!(rt; theorems::begins_with_element(&[0x06, 0x00]));
    let key = Oid::new_unwrap("1.2.840.10045.2.1");
    assert!(rt; is_under_any(&rsa.as_oid_ref(), &[key.as_oid_ref(), rsa.as_oid_ref()]));
    let enterprises = parse("1.3.6.1.4.1")?;
    assert!(rt; theorems::is_enterprise(&enterprises));
    let number = enterprises.push_arc(8072)?;
    assert!(rt; theorems::is_enterprise_number(&number.as_oid_ref()));
    Ok(())
}

#[test]
fn finds_attribute_types_by_name_and_text(rt: HostRuntime) {
    let common_name = CommonName::associated_oid();
    let country = Country::associated_oid();
    let entries = [
        (&common_name, "cn"),
        (&common_name, "commonName"),
        (&country, "c"),
    ];
    let database = Database::new(&entries);
    assert!(rt; find(&database, "COMMONNAME") == Ok(common_name));
    assert!(rt; find(&database, "2.5.4.6") == Ok(country));
    assert!(rt; find(&database, "x") == Err(Error::DigitExpected { actual: b'x' }));
    let attribute = Attribute { kind: country };
    assert!(rt; has_type::<Country>(&attribute) && !has_type::<CommonName>(&attribute));
}

/// Attribute types and their names (RFC 4519, section 2).
const ATTRIBUTE_ROWS: &[(&str, &str)] = &[
    ("cn", "2.5.4.3"),
    ("sn", "2.5.4.4"),
    ("c", "2.5.4.6"),
    ("o", "2.5.4.10"),
    ("dc", "0.9.2342.19200300.100.1.25"),
];

/// The table has each row, and no other.
#[test]
fn the_table_has_each_row_and_no_other(rt: HostRuntime) -> Result<(), Fail> {
    assert!(rt; ATTRIBUTE_TYPES.len() == ATTRIBUTE_ROWS.len());
    let table = SortedDatabase::try_new(&ATTRIBUTE_TYPES).ok_or("not sorted")?;
    for (name, text) in ATTRIBUTE_ROWS {
        let oid = parse(text)?;
        let is_found = table.by_oid(&oid.as_oid_ref()) == Some(*name);
        assert!(rt; is_found && is_attribute_type(&oid.as_oid_ref()), "{name}");
    }
    assert!(rt; !is_attribute_type(&theorems::rsa_encryption().as_oid_ref()));
    Ok(())
}

/// Octets, and the name of their algorithm, if it has one, or their error.
const NAMED: &[(&[u8], Result<Option<&str>, Error>)] = &[
    (&RSA, Ok(Some("rsaEncryption"))),
    (&[0x2B, 0x65, 0x70], Ok(Some("Ed25519"))),
    (&[0x2B, 0x65, 0x71], Ok(None)),
    (&[0x2A, 0x80, 0x01], Err(Error::Base128)),
];

#[test]
fn names_algorithms(rt: HostRuntime) -> Result<(), Fail> {
    let rsa = theorems::rsa_encryption();
    let ed25519 = Oid::new_unwrap("1.3.101.112");
    let entries = [(&rsa, "rsaEncryption"), (&ed25519, "Ed25519")];
    let mut memory = Vec::new(rt.alloc());
    let database = indexed(&entries, &mut memory)?;
    for (octets, answer) in NAMED {
        assert!(rt; name_of(&database, octets) == *answer, "{octets:?}");
    }
    Ok(())
}

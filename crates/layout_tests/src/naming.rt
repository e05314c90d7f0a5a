// Which texts are names, which numbers are versions, and how names are stored.
use names::name::Name;
use names::version::Version;
use refusal::Refusal;
use std::process::Abort;
use std::test::Fail;

const BAD: Option<Refusal> = Some(Refusal::BadName);

// A text, and why it is turned down as a name, if it is.
type Row = (&'static [u8], Option<Refusal>);

const TEXTS: [Row; 15] = [
    (b"A", None),
    (b"-", None),
    (b"R-10", None),
    (b"AZ09-", None),
    (b"ABCDEFGHIJKLMNOPQRST", None),
    (b"ABCDEFGHIJKLMNOPQRSTU", BAD),
    (b"", BAD),
    (b"r5", BAD),
    (b"R 5", BAD),
    (b"R5\0", BAD),
    (b"R/5", BAD),
    (b"R:5", BAD),
    (b"R@5", BAD),
    (b"R[5", BAD),
    (b"R\xc15", BAD),
];

#[test]
fn texts(rt: HostRuntime) {
    for (text, refusal) in TEXTS {
        assert_eq!(rt; Name::new(text).err(), refusal, "{text:?}");
    }
}

#[test]
fn stored(rt: HostRuntime) -> Result<(), Fail> {
    let name = Name::new(b"R-10")?;
    assert!(rt; name.bytes == *b"R-10\0\0\0\0\0\0\0\0\0\0\0\0\0\0\0\0");
    assert_eq!(rt; Name::from_bytes(&name.bytes), Some(name));
    assert_eq!(rt; Name::from_bytes(&[0; 20]), None);
    assert_eq!(rt;
        Name::from_bytes(b"R-10\0\0\0\0\0\0\0\0\0\0\0\0\0\0\0A"),
        None
    );
    Ok(())
}

#[test]
fn printed(rt: HostRuntime) -> Result<(), Fail> {
    let name = Name::new(b"R-10")?;
    assert_eq!(rt; name.text(), "R-10");
    let text = format!(in rt.alloc(); "{name} {name:>6}")?;
    assert_eq!(rt; text.as_str(), "R-10   R-10");
    Ok(())
}

#[test]
fn versions(rt: HostRuntime) -> Result<(), Fail> {
    assert_eq!(rt; Version::first().number, 1);
    assert_eq!(rt; Version::new(0), None);
    assert_eq!(rt; Version::new(10000), None);
    let last = Version::new(9998).ok_or(Refusal::VersionAbove)?.next()?;
    assert_eq!(rt; last.number, 9999);
    assert_eq!(rt; last.next(), Err(Refusal::VersionAbove));
    Ok(())
}

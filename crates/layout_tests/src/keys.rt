// Keys, their order, and bounds.
use names::bound::Bound;
use names::key::Key;
use names::name::Name;
use refusal::Refusal;
use std::process::Abort;
use std::test::Fail;

#[test]
fn bytes(rt: HostRuntime) -> Result<(), Fail> {
    let key = Key::of(b"R5", 9999).ok_or("no key")?;
    assert!(rt; key.bytes == *b"R5\0\0\0\0\0\0\0\0\0\0\0\0\0\0\0\0\0\0\x27\x0f");
    assert_eq!(rt; key.version().number, 9999);
    assert_eq!(rt; key.name(), Name::new(b"R5")?);
    assert_eq!(rt; Key::from_bytes(&key.bytes), Some(key));
    assert_eq!(rt; Key::from_bytes(&[0; 22]), None);
    Ok(())
}

// Names and versions of two keys, the first of which comes before the second.
type Row = (&'static [u8], u16, &'static [u8], u16);

const ORDER: [Row; 7] = [
    (b"R10", 1, b"R5", 1),
    (b"R10", 9999, b"R5", 1),
    (b"R", 9999, b"R-", 1),
    (b"R-1", 1, b"R1", 1),
    (b"R9", 1, b"RA", 1),
    (b"R5", 1, b"R5", 2),
    (b"R5", 255, b"R5", 256),
];

#[test]
fn order(rt: HostRuntime) -> Result<(), Fail> {
    for (first, one, second, other) in ORDER {
        let low = Key::of(first, one).ok_or("no key")?;
        let high = Key::of(second, other).ok_or("no key")?;
        assert!(rt; low.before(&high), "{low} {high}");
        assert!(rt; !high.before(&low), "{low} {high}");
        assert!(rt; !low.before(&low), "{low}");
    }
    Ok(())
}

#[test]
fn of_texts(rt: HostRuntime) -> Result<(), Fail> {
    let key = Key::of(b"R-10", 12).ok_or("no key")?;
    let text = format!(in rt.alloc(); "{key}")?;
    assert_eq!(rt; text.as_str(), "R-10.12");
    assert_eq!(rt; Key::of(b"r5", 1), None);
    assert_eq!(rt; Key::of(b"R5", 0), None);
    Ok(())
}

#[test]
fn bounds(rt: HostRuntime) -> Result<(), Fail> {
    assert!(rt; Bound::lowest().bytes == [0; 22]);
    assert!(rt; Bound::new(b"", 0)?.bytes == [0; 22]);
    assert!(rt; Bound::new(b"R5", 1)?.bytes == Key::of(b"R5", 1).ok_or("no key")?.bytes);
    assert_eq!(rt; Bound::new(b"R5", u16::MAX).err(), None);
    assert_eq!(rt; Bound::new(b"r5", 1), Err(Refusal::BadName));
    Ok(())
}

// Good numbers of a volume and bad ones, the places that follow from good ones, and the thirds.
use geometry::geometry::Geometry;
use geometry::third::{NoSuchThird, Third};
use refusal::Refusal;
use std::process::Abort;
use std::test::Fail;

// Why these numbers are turned down, if they are.
fn turned_down(pages: u32, third: u32, sectors: u32) -> Option<Refusal> {
    Geometry::new(pages, third, sectors).err()
}

const BAD: Option<Refusal> = Some(Refusal::BadNumbers);

// Checks that these numbers of sectors of a third and of the disk are the least good ones, with so many pages.
fn least(rt: &impl Abort, pages: u32, third: u32, sectors: u32) {
    assert_eq!(rt; turned_down(pages, third, sectors), None);
    assert_eq!(rt; turned_down(pages, third, sectors.saturating_sub(1)), BAD);
    assert_eq!(rt; turned_down(pages, third.saturating_sub(1), sectors), BAD);
}

#[test]
fn least_numbers(rt: HostRuntime) {
    least(&rt, 2, 10, 46);
    least(&rt, 4, 14, 62);
    least(&rt, 21, 48, 198);
}

#[test]
fn greatest_numbers(rt: HostRuntime) {
    assert_eq!(rt; turned_down(4, 33, 120), None);
    assert_eq!(rt; turned_down(4, 34, 120), BAD);
    assert_eq!(rt; turned_down(4, 1000, u32::MAX), None);
    assert_eq!(rt; turned_down(4, 1001, u32::MAX), BAD);
    assert_eq!(rt; turned_down(1, 14, 120), BAD);
    assert_eq!(rt; turned_down(22, 60, 9999), BAD);
}

// Checks the number of a third, and the third after it.
fn third(rt: &impl Abort, third: Third, number: u8, next: Third) {
    assert_eq!(rt; u8::from(third), number);
    assert_eq!(rt; Third::try_from(number), Ok(third));
    assert_eq!(rt; third.next(), next);
}

#[test]
fn thirds(rt: HostRuntime) {
    third(&rt, Third::Zero, 0, Third::One);
    third(&rt, Third::One, 1, Third::Two);
    third(&rt, Third::Two, 2, Third::Zero);
    assert_eq!(rt; Third::try_from(3), Err(NoSuchThird(3)));
}

#[test]
fn no_such_third(rt: HostRuntime) -> Result<(), Fail> {
    let text = format!(in rt.alloc(); "{}", NoSuchThird(5))?;
    assert_eq!(rt; text.as_str(), "no third 5");
    Ok(())
}

// A third, its first sector and its last.
const THIRDS: [(Third, u32, u32); 3] = [
    (Third::Zero, 8, 21),
    (Third::One, 22, 35),
    (Third::Two, 36, 49),
];

#[test]
fn places_of_thirds(rt: HostRuntime) -> Result<(), Fail> {
    let geometry = Geometry::new(4, 14, 120)?;
    for (third, start, last) in THIRDS {
        assert_eq!(rt; geometry.third_start(third), start);
        assert_eq!(rt; geometry.last_of(third), last);
    }
    Ok(())
}

#[test]
fn homes_and_data(rt: HostRuntime) -> Result<(), Fail> {
    let geometry = Geometry::new(4, 14, 120)?;
    assert_eq!(rt; geometry.first_homes(), 50);
    assert_eq!(rt; geometry.second_homes(), 55);
    assert_eq!(rt; geometry.data_start(), 60);
    Ok(())
}

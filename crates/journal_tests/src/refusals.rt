// What is refused, and that nothing is written then.
use crate::bytes::{BLANK, formatted, spoil};
use crate::calls::Answer::*;
use crate::calls::Call::*;
use crate::calls::{Answer, Call, Step, on_image, play};
use crate::noting::{Row, on_noting};
use image::Image;
use journal::journal::Journal;
use refusal::Refusal;
use refusal::Refusal::*;
use std::process::Abort;

// Right calls and wrong ones.
const DOWN: &[Step] = &[
    (Change(1, 9), Refused(VolumeDown)),
    (Change(4, 9), Refused(VolumeDown)),
    (ChangeTo(1, b"FSDH"), Refused(VolumeDown)),
    (Force, Refused(VolumeDown)),
    (Shut, Refused(VolumeDown)),
    (Image(1), Refused(VolumeDown)),
    (Image(4), Refused(VolumeDown)),
    (Data(60, 9), Refused(VolumeDown)),
    (Data(0, 9), Refused(VolumeDown)),
];

const SHUT: &[Step] = &[(Recover, Done), (Change(1, 11), Done), (Shut, Done)];

#[test]
fn while_down(rt: HostRuntime) {
    let mut bytes = BLANK;
    let mut journal = Journal::new(Image::new(&mut bytes));
    play(&rt, &"new", &mut journal, DOWN);
    play(&rt, &"format", &mut journal, &[(Format(14, 4), Done)]);
    play(&rt, &"formatted", &mut journal, DOWN);
    play(&rt, &"shut", &mut journal, SHUT);
    play(&rt, &"down", &mut journal, DOWN);
}

const UP: &[Row] = &[
    (Recover, Done, &[4, 6]),
    (Change(1, 11), Done, &[]),
    (Recover, Refused(VolumeUp), &[]),
    (Format(14, 4), Refused(VolumeUp), &[]),
    (Format(0, 0), Refused(VolumeUp), &[]),
    (Image(1), Holds(11), &[]),
    (Force, Forced(2), &[8, 10, 11, 12, 13, 14]),
];

const PAGES: &[Row] = &[
    (Recover, Done, &[4, 6]),
    (Image(4), Refused(RegisterBroken(4)), &[]),
    (Change(4, 9), Refused(RegisterBroken(4)), &[]),
    (Change(21, 9), Refused(RegisterBroken(21)), &[]),
    (Change(u32::MAX, 9), Refused(RegisterBroken(u32::MAX)), &[]),
    (ChangeTo(1, b"FSDH"), Refused(RegisterBroken(1)), &[]),
    (ChangeTo(2, b"FSDE"), Refused(RegisterBroken(2)), &[]),
    (Image(1), Holds(2), &[]),
    (Image(2), Holds(3), &[]),
    (Force, Forced(0), &[]),
    (ChangeTo(1, b"FSDA"), Done, &[]),
    (ChangeTo(2, b"FSD"), Done, &[]),
    (Force, Forced(2), &[8, 10, 11, 12, 13, 14, 15, 16]),
];

const DATA: &[Row] = &[
    (Recover, Done, &[4, 6]),
    (Data(0, 9), Refused(NoSuchSector), &[]),
    (Data(59, 9), Refused(NoSuchSector), &[]),
    (Data(60, 9), Done, &[60]),
    (Data(119, 9), Done, &[119]),
    (Data(120, 9), Refused(NoSuchSector), &[]),
    (Data(u32::MAX, 9), Refused(NoSuchSector), &[]),
    (Image(1), Holds(2), &[]),
];

#[test]
fn while_up(rt: HostRuntime) {
    for rows in [UP, PAGES, DATA] {
        on_noting(&rt, &mut formatted(&rt), rows);
    }
}

// Formats of a blank disk of so many sectors. Four pages with thirds of 14 sectors need 62, and on 120 sectors a third has at most 33.
const FORMATS: [(usize, Call, Answer); 14] = [
    (120, Format(13, 4), Refused(BadNumbers)),
    (120, Format(34, 4), Refused(BadNumbers)),
    (120, Format(1001, 4), Refused(BadNumbers)),
    (120, Format(u32::MAX, 4), Refused(BadNumbers)),
    (120, Format(14, 0), Refused(BadNumbers)),
    (120, Format(14, 1), Refused(BadNumbers)),
    (120, Format(14, 5), Refused(BadNumbers)),
    (120, Format(14, 22), Refused(BadNumbers)),
    (120, FormatTo(b"FSDH"), Refused(BadNumbers)),
    (120, FormatTo(b"FSDE"), Refused(BadNumbers)),
    (61, Format(14, 4), Refused(BadNumbers)),
    (62, Format(14, 4), Done),
    (120, Format(33, 4), Done),
    (120, FormatTo(b"FSDV"), Done),
];

// Checks the answer, and that a disk that is refused is as it was.
fn format(rt: &impl Abort, (sectors, call, answer): (usize, Call, Answer)) {
    let mut bytes = BLANK;
    assert!(rt; sectors <= 120);
    let end = 513 * sectors;
    on_image(rt, &end, &mut bytes[..end], &[(call, answer)]);
    assert_eq!(rt; bytes == BLANK, answer != Done, "{}", end);
}

#[test]
fn of_formats(rt: HostRuntime) {
    for row in FORMATS {
        format(&rt, row);
    }
}

// Sectors that are unreadable after a format, and how a recovery is refused.
const LOST: [(&[usize], Refusal); 4] = [
    (&[0, 2], NoVolume),
    (&[4, 6], NoVolume),
    (&[52, 57], RegisterBroken(2)),
    (&[52, 53, 57, 58], RegisterBroken(2)),
];

#[test]
fn of_recoveries(rt: HostRuntime) {
    on_noting(&rt, &mut BLANK, &[(Recover, Refused(NoVolume), &[])]);
    for (sectors, refusal) in LOST {
        let mut bytes = formatted(&rt);
        spoil(&rt, &mut bytes, sectors);
        on_noting(&rt, &mut bytes, &[(Recover, Refused(refusal), &[])]);
    }
}

// A page whose copies are both unreadable is not missing where a record has it.
#[test]
fn not_of_a_page_in_the_log(rt: HostRuntime) {
    let mut bytes = formatted(&rt);
    on_image(&rt, &"shut", &mut bytes, SHUT);
    spoil(&rt, &mut bytes, &[51, 56]);
    on_noting(&rt, &mut bytes, &[(Recover, Done, &[51, 56, 51, 56, 4, 6])]);
    on_image(
        &rt,
        &"back",
        &mut bytes,
        &[(Recover, Done), (Image(1), Holds(11))],
    );
}

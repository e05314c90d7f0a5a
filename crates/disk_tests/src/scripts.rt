// A script: disk calls, and the answers that they must have.
use crate::bytes::{count_tail, is_all, put_tail};
use disk::disks::{Disk, Spoilable};
use disk::faults::Fault;
use disk::runs::write_run;
use std::fmt::Debug;
use std::process::Abort;

/// A call on a disk.
// No closure: a script is a table that can be read, and its calls are asked of disks of every kind.
#[derive(Clone, Copy, PartialEq, Eq, Debug)]
pub enum Call {
    Count,
    Start,
    Read(u32),
    /// Of 512 bytes that are all the same.
    Write(u32, u8),
    /// Of blocks that hold 11, 12, 13 and 14, as many of them as it says.
    WriteRun(u32, usize),
    Spoil(u32),
}

/// What a call answers.
#[derive(Clone, Copy, PartialEq, Eq, Debug)]
pub enum Answer {
    Sectors(u32),
    Done,
    /// A read found 512 bytes that are all the same.
    Holds(u8),
    HoldsMixed,
    /// A refused read left the caller's 512 bytes as they were.
    Refused(Fault),
    RefusedAndFilled,
}

// The answers to reads of sectors that are unreadable. No array, since an element of one is no constant.
pub const BAD_0: Answer = Answer::Refused(Fault::Unreadable(0));

pub const BAD_1: Answer = Answer::Refused(Fault::Unreadable(1));

pub const BAD_2: Answer = Answer::Refused(Fault::Unreadable(2));

pub const BAD_3: Answer = Answer::Refused(Fault::Unreadable(3));

pub const BAD_4: Answer = Answer::Refused(Fault::Unreadable(4));

// The answer to a call other than count and read.
fn answer_of(res: Result<(), Fault>) -> Answer {
    match res {
        Ok(()) => Answer::Done,
        Err(fault) => Answer::Refused(fault),
    }
}

fn read<D: Disk>(disk: &mut D, sector: u32) -> Answer {
    let mut block = [0; 512];
    put_tail(&mut block, 0);
    match disk.read(sector, &mut block) {
        Ok(()) if is_all(&block, block[0]) => Answer::Holds(block[0]),
        Ok(()) => Answer::HoldsMixed,
        Err(fault) if count_tail(&block, 0) == 512 => Answer::Refused(fault),
        Err(_) => Answer::RefusedAndFilled,
    }
}

fn run<D: Disk>(disk: &mut D, first: u32, many: usize) -> Answer {
    let blocks = [[11; 512], [12; 512], [13; 512], [14; 512]];
    answer_of(write_run(disk, first, &blocks[0..many.min(4)]))
}

/// The answer to a call that every disk has, and none to a spoil.
pub fn ask_any<D: Disk>(disk: &mut D, call: Call) -> Option<Answer> {
    match call {
        Call::Count => Some(Answer::Sectors((*disk).count())),
        Call::Start => Some(answer_of(disk.start())),
        Call::Read(sector) => Some(read(disk, sector)),
        Call::Write(sector, byte) => Some(answer_of(disk.write(sector, &[byte; 512]))),
        Call::WriteRun(first, many) => Some(run(disk, first, many)),
        Call::Spoil(_) => None,
    }
}

/// The answer to any call.
pub fn ask<D: Spoilable>(disk: &mut D, call: Call) -> Option<Answer> {
    match call {
        Call::Spoil(sector) => Some(answer_of(disk.spoil(sector))),
        _ => ask_any(disk, call),
    }
}

/// Makes each call of a script in turn by `ask`, and checks its answer. A wrong one names the row of a table, or which script it was, and the call.
pub fn play<D, F: Fn(&mut D, Call) -> Option<Answer>>(
    rt: &impl Abort,
    row: &impl Debug,
    ask: F,
    disk: &mut D,
    script: &[(Call, Answer)],
)
    requires { F.IsAlwaysCallable ask }
{
    for (i, (call, answer)) in script.iter().enumerate() {
        assert_eq!(rt; ask(disk, *call), Some(*answer), "{:?}: {}", row, i);
    }
}

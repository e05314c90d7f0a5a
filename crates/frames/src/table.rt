// A table of frames, one for each page, by the pages' numbers.
ghost use Rattle.std.specs.Prelude.{◌≡◌, ◌≤◌, map, length};
ghost use Rattle.frames.specs.Frames.{changed_pages, settled, released, unheld, any_changed, head_of};

use crate::frame::Frame;
use geometry::third::Third;
use layout::head::RecordHead;

/// Whether any page changed.
pub fn any_changed(frames: &[Frame]) -> bool
    ensures { result ≡ any_changed frames.now }
{
    frames.iter().any(|frame| frame.changed)
}

/// How many pages changed.
pub fn changed_count(frames: &[Frame]) -> u32
    requires { length frames.now ≤ 21 }
    ensures { result ≡ length (changed_pages frames.now) }
{
    frames.iter().filter(|frame| frame.changed).count() as u32
}

/// The head of a record of the changed pages.
pub fn head_of(frames: &[Frame], group: u32) -> RecordHead
    requires { length frames.now ≤ 21 }
    ensures { result ≡ head_of group frames.now }
{
    let mut head = RecordHead {
        group,
        count: 0,
        pages: [0; 21],
    };
    for (page, frame) in frames.iter().enumerate() {
        if frame.changed {
            head.pages[usize::from(head.count)] = page as u8;
            head.count += 1;
        }
    }
    head
}

/// After a force whose record stands in `third`: the changed pages are forced.
pub fn settle(frames: &mut [Frame], third: Third)
    ensures { frames.new ≡ map (settled third) frames.old }
{
    for frame in frames {
        frame.settle(third);
    }
}

/// After the records in `third` were given up: no page has its newest record there.
pub fn release(frames: &mut [Frame], third: Third)
    ensures { frames.new ≡ map (released third) frames.old }
{
    for frame in frames {
        frame.release(third);
    }
}

/// After the log was emptied: no page has a record.
pub fn empty_log(frames: &mut [Frame])
    ensures { frames.new ≡ map unheld frames.old }
{
    for frame in frames {
        frame.third = None;
    }
}

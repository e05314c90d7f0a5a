// Scripts played on each kind of disk.
use crate::scripts::{Answer, Call, ask, play};
use disk::disks::Spoilable;
use image::Image;
use std::process::Abort;

/// The image over `bytes`, with its power on or off.
pub fn image_of(bytes: &mut [u8], power: bool) -> Image<'_> {
    let mut image = Image::new(bytes);
    if !power {
        image.switch_off();
    }
    image
}

/// Plays a script on an image.
pub fn on_image(rt: &impl Abort, bytes: &mut [u8], power: bool, script: &[(Call, Answer)]) {
    play(rt, &"image", ask, &mut image_of(bytes, power), script);
}

// Plays a script on a disk by value.
fn on_disk<D: Spoilable + Drop>(rt: &impl Abort, mut disk: D, script: &[(Call, Answer)]) {
    play(rt, &"lent", ask, &mut disk, script);
}

/// Plays a script on an image that is lent.
pub fn on_lent(rt: &impl Abort, bytes: &mut [u8], script: &[(Call, Answer)]) {
    let mut image = Image::new(bytes);
    on_disk(rt, &mut image, script);
}

/// Plays a script on a disk above another, and then one on the disk below, which `into_below` gives back.
pub fn on_above<T: Spoilable, D: Spoilable + Drop, F: FnOnce(T) -> D>(
    rt: &impl Abort,
    mut above: T,
    into_below: F,
    script: &[(Call, Answer)],
    below: &[(Call, Answer)],
)
    requires { F.IsAlwaysCallable into_below }
{
    play(rt, &"above", ask, &mut above, script);
    play(rt, &"below", ask, &mut into_below(above), below);
}

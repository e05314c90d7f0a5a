// The working sector is all zeros when a call is over, however it ends.
ghost use Rattle.std.specs.Prelude.{◌≡◌, replicate};

/// The caller's 512 bytes, in which a call works; they are zeros when it lets them go.
pub struct Working<'a>(pub &'a mut [u8; 512]);

impl Drop for Working<'_> {
    fn drop(self)
        ensures { self.exit.0.now ≡ replicate 512 0 }
    {
        *self.0 = [0; 512];
        let Working(_) = self;
    }
}

//! A disk of two sides: what it reads, and what a crash may leave between two syncs.

ghost use Rattle.std.specs.Prelude.{◌≡◌, ◌+◌, ◌≤◌, Bool, IsTrue, ℕ, length, take, drop, OnOk, IfOk, is_ok};
ghost use Rattle.xs_outside.specs.Disk.{DiskState, on, Changes, Written, Torn, NoMoreImages, NoFewerImages, SameImages, Sides, SyncedImages, IsDiskCall, Fetches, MayLeaveNow};

use crate::{Failed, Side};

/// A disk of two sides.
///
/// It is honest if its reads give what was written and nobody else writes it. What its calls say of
/// the bytes of the sides is said of an honest disk.
pub trait Disk {
    /// All that it tells.
    ghost state: { Self → DiskState };

    /// A length or a read, which succeeded or not, may lead from the first of these to the second.
    ghost looks: { Bool → Self → Self → Type 0 };

    /// A write or a sync, which succeeded or not, may lead from the first of these to the second.
    ghost stores: { Bool → Self → Self → Type 0 };

    /// The number of bytes of a side.
    fn length(&mut self, side: Side) -> Result<u64, Failed>
        ensures length { IfOk result (λ n. IsTrue (state self.old).honest
            → n ≡ length (on side (state self.old).content)) }
        ensures content { (state self.new).content ≡ (state self.old).content }
        ensures images { SameImages (state self.old) (state self.new) }
        ensures fetched { (state self.new).fetched ≡ (state self.old).fetched }
        ensures call { IsDiskCall result (state self.old) (state self.new) }
        ensures relation { looks (is_ok result) self.old self.new };

    /// Fills the slice with the bytes of a side from a place on.
    fn read(&mut self, side: Side, at: u64, into: &mut [u8]) -> Result<(), Failed>
        requires { IsTrue (state self.old).honest
            → at + length into.old ≤ length (on side (state self.old).content) }
        ensures bytes { OnOk result (IsTrue (state self.old).honest
            → into.new ≡ take (length into.old) (drop at (on side (state self.old).content))) }
        ensures content { (state self.new).content ≡ (state self.old).content }
        ensures images { SameImages (state self.old) (state self.new) }
        ensures fetched { Fetches result (length into.old) (state self.old) (state self.new) }
        ensures call { IsDiskCall result (state self.old) (state self.new) }
        ensures relation { looks (is_ok result) self.old self.new };

    /// Writes over what stands on a side from a place on, and past its end. Until the side is synced
    /// a crash may leave any bytes in the range. At `Failed` that holds of a read too.
    fn write(&mut self, side: Side, at: u64, bytes: &[u8]) -> Result<(), Failed>
        requires { IsTrue (state self.old).honest → at ≤ length (on side (state self.old).content) }
        ensures written { OnOk result (IsTrue (state self.old).honest
            → Changes side (Written at bytes.now)
            (state self.old).content (state self.new).content) }
        ensures unfinished { IsTrue (state self.old).honest
            → Changes side (Torn at (length bytes.now))
            (state self.old).content (state self.new).content }
        ensures images { IsTrue (state self.old).honest
            → NoMoreImages (Changes side (Torn at (length bytes.now)))
            (state self.old) (state self.new) }
        ensures torn { OnOk result (IsTrue (state self.old).honest
            → NoFewerImages (Changes side (Torn at (length bytes.now)))
            (state self.old) (state self.new)) }
        ensures fetched { (state self.new).fetched ≡ (state self.old).fetched }
        ensures call { IsDiskCall result (state self.old) (state self.new) }
        ensures relation { stores (is_ok result) self.old self.new };

    /// After it, a crash leaves of that side what a read gives. One that failed adds no image.
    fn sync(&mut self, side: Side) -> Result<(), Failed>
        ensures synced { OnOk result (IsTrue (state self.old).honest
            → SyncedImages side (state self.old) (state self.new)) }
        ensures images { IsTrue (state self.old).honest
            → (image : Sides) → MayLeaveNow (state self.new) image
            → MayLeaveNow (state self.old) image }
        ensures content { (state self.new).content ≡ (state self.old).content }
        ensures fetched { (state self.new).fetched ≡ (state self.old).fetched }
        ensures call { IsDiskCall result (state self.old) (state self.new) }
        ensures relation { stores (is_ok result) self.old self.new };

    /// What an honest disk reads is an image of now.
    ghost reads_an_image: { (disk : Self) → IsTrue (state disk).honest
        → MayLeaveNow (state disk) (state disk).content };
}

// Rows of places in a block, each empty or holding a value. All of this crate's raw pointers are here.
ghost use Rattle.std.specs.Prelude.{◌≡◌, ◌+◌, ◌-◌, ◌*◌, ◌<◌, ◌≤◌, List, Option, Some, None, map, length, take, replicate, slice_set, IfOk, ⊤};
ghost use Rattle.std.specs.Mem.{type_size};
ghost use Rattle.std.specs.Align.{type_align};
ghost use Rattle.std.specs.Vec.Ownership.{FitsInBlock};
ghost use denote.RawPtr.{Ptr};
ghost use Rattle.p8_region.specs.Ownership.{places_own, places_lent};
ghost use Rattle.p8_region.specs.Places.{IsFilled};

use std::alloc::{AllocError, Allocator};
use std::marker::{Model, PhantomData, Send, Sync};
use std::mem::{align_of, size_of};
use std::slice;

/// Where a row begins. It owns nothing.
pub struct Start<T> {
    ptr: *mut T,
}

impl<T> Clone for Start<T> {
    ghost is_clone = { λ x y. y ≡ x };

    ghost is_infallible = { λ _. ⊤ };

    fn clone(&self) -> Result<Start<T>, AllocError> {
        Ok(*self)
    }
}

impl<T> Copy for Start<T> {}

unsafe impl<T> Send for Start<T> {}

unsafe impl<T> Sync for Start<T> {}

/// The owner of a row of places. It takes no space: who keeps it keeps the start beside it.
///
/// To let it go leaves its places taken.
#[derive(Drop)]
pub struct Places<T> {
    mark: PhantomData<*const T>,
    ghost at: { Ptr },
    ghost slots: { List (Option T) },
}

impl<T> Model for Places<T> {
    ghost also_owns = { λ p. places_own T.row p.at p.slots };

    ghost also_shares = { λ p _ κ. places_lent T.row p.at p.slots κ };
}

unsafe impl<T: Send> Send for Places<T> {}

unsafe impl<T: Sync> Sync for Places<T> {}

// A new block of `len` empty places. It rests on the allocator's promise that what it hands out belongs to nobody
// else and is aligned for a `T`. The memory isn't touched.
pub(crate) fn reserve<T, A: Allocator>(
    alloc: &A,
    len: usize,
) -> Result<(Start<T>, Places<T>), AllocError>
    requires { FitsInBlock T.row len }
    ensures { IfOk result (λ r. (r.1.at ≡ r.0.ptr) × (r.1.slots ≡ replicate len None)) }
{
    match alloc.allocate(len * size_of::<T>(), align_of::<T>()) {
        Ok(block) => {
            let start = Start {
                ptr: block as *mut T,
            };
            Ok((start, Places { mark: PhantomData }))
        }
        Err(error) => Err(error),
    }
}

// The places of eight bytes from the place `from` on leave their row and become `_count` empty places for a `T`. It
// rests on this: the row gives them up, an address that 8 divides is aligned for a `T`, and the bytes suffice.
pub(crate) fn cut_off<T>(
    row: &mut Places<u64>,
    start: Start<u64>,
    from: usize,
    _count: usize,
) -> (Start<T>, Places<T>)
    requires { (start.ptr ≡ row.old.at) × (row.old.slots ≡ replicate (length row.old.slots) None) × (from ≤ length row.old.slots) ×
        (_count * type_size T.row ≤ (length row.old.slots - from) * 8) × (type_align T.row ≤ 8) }
    ensures { (row.new.at ≡ row.old.at) × (row.new.slots ≡ replicate from None) × (result.1.at ≡ result.0.ptr) × (result.1.slots ≡ replicate _count None) }
{
    let ptr = unsafe { start.ptr.add(from) };
    let start = Start { ptr: ptr as *mut T };
    (start, Places { mark: PhantomData })
}

impl<T> Places<T> {
    // Writes over whatever the place holds. It rests on the place being one of the row's, which are this owner's.
    pub(crate) fn write(&mut self, start: Start<T>, index: usize, item: T)
        requires { (start.ptr ≡ self.old.at) × (index < length self.old.slots) }
        ensures { (self.new.at ≡ self.old.at) × (self.new.slots ≡ slice_set self.old.slots index (Some item)) }
    {
        unsafe { start.ptr.add(index).write(item) }
    }

    // The first `len` values. It rests on each of these places holding one, and on nobody writing there meanwhile.
    pub(crate) fn slice(&self, start: Start<T>, len: usize) -> &[T]
        requires { (start.ptr ≡ self.now.at) × IsFilled self.now.slots len }
        ensures { take len self.now.slots ≡ map Some result.now }
    {
        unsafe { slice::from_raw_parts(start.ptr, len) }
    }
}

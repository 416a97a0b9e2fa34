// A block of raw memory, with a value or with room for one. What goes through the pointer is in these four functions alone,
// which are proved by hand.
ghost use Rattle.std.specs.Prelude.{◌≡◌, MatchResult};
ghost use Rattle.fan_base.specs.Block.{block_owns, room_owns};

use std::alloc::Allocator;
use std::marker::{Model, Send};
use std::mem::{align_of, size_of};

/// A block with no value in it, and the allocator that it goes back to.
pub struct Room<T, A: Allocator> {
    ptr: *mut T,
    pub alloc: A,
}

impl<T, A: Allocator> Model for Room<T, A> {
    ghost also_owns = { λ room. room_owns (A.dealloc_token room.alloc) T.row room.ptr };
}

/// A block with one value in it.
pub struct Block<T, A: Allocator> {
    ptr: *mut T,
    pub alloc: A,
    pub ghost value: { T },
}

impl<T, A: Allocator> Model for Block<T, A> {
    ghost also_owns = { λ block. block_owns (A.dealloc_token block.alloc) T.row block.ptr block.value };
}

unsafe impl<T: Send, A: Allocator + Send> Send for Block<T, A> {}

impl<T, A: Allocator> Room<T, A> {
    /// Allocates a block, or gives the allocator back where there is no memory.
    pub fn allocate(alloc: A) -> Result<Room<T, A>, A>
        ensures { MatchResult result (λ room. room.alloc ≡ alloc) (λ back. back ≡ alloc) }
    {
        match alloc.allocate(size_of::<T>(), align_of::<T>()) {
            Ok(bytes) => Ok(Room {
                ptr: bytes as *mut T,
                alloc,
            }),
            Err(_) => Err(alloc),
        }
    }

    /// Moves a value into the block.
    pub fn write(self, value: T) -> Block<T, A>
        ensures value { result.value ≡ value }
        ensures allocator { result.alloc ≡ self.alloc }
    {
        let Room { ptr, alloc } = self;
        unsafe {
            ptr.write(value);
        }
        Block { ptr, alloc }
    }

    /// Gives the block back to its allocator.
    pub fn free(self) -> A
        ensures { result ≡ self.alloc }
    {
        unsafe {
            self.alloc
                .deallocate(self.ptr as *mut u8, size_of::<T>(), align_of::<T>());
        }
        let Room { ptr: _, alloc } = self;
        alloc
    }
}

impl<T, A: Allocator> Block<T, A> {
    /// Moves the value out of the block.
    pub fn read(self) -> (T, Room<T, A>)
        ensures { result.0 ≡ self.value }
    {
        let Block { ptr, alloc } = self;
        let value = unsafe { ptr.read() };
        (value, Room { ptr, alloc })
    }
}

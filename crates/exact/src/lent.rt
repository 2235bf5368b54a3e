// For our own crates: items copied into a room.
ghost use Rattle.std.specs.Prelude.{◌≡◌, ◌≤◌, length};
ghost use Rattle.exact.specs.Lists.{into};

// The items go into the front of the room, and the rest of it stays.
pub fn copy<T: Copy>(items: &[T], room: &mut [T])
    requires { length items.now ≤ length room.old }
    ensures { room.new ≡ into items.now room.old }
{
    room[..items.len()].copy_from_slice(items);
}

//! How many items the pages of a lane have room for.
ghost use Rattle.std.specs.Prelude.{◌≡◌, ◌*◌, min};
ghost use Rattle.cut_pool.specs.Opened.{IsRoom};

/// As many items as a first page has room for.
pub const FIRST_ROOM: u32 = 16;

/// As many items as any page has room for.
pub const MOST_ROOM: u32 = 1024;

/// The room of the page behind one of this room: twice as much, up to the most.
pub fn next_room(room: u32) -> u32
    requires { IsRoom room }
    ensures room { IsRoom result }
    ensures twice { result ≡ min (2 * room) MOST_ROOM }
{
    if 2 * room < MOST_ROOM {
        2 * room
    } else {
        MOST_ROOM
    }
}

// What the crates above call with a room that is known to be large enough.
ghost use Rattle.std.specs.Prelude.{◌≡◌, ◌+◌, ◌≤◌, length};
ghost use Rattle.text.specs.Bytes.{put_at};
ghost use Rattle.text.specs.Decimal.{decimal};

fn digit(n: u64) -> u8
    requires { n ≤ 9 }
    ensures { result ≡ 48 + n }
{
    48 + n as u8
}

// The decimal digits of a number, put into the room from a place on. Answers the place behind them.
pub fn write_number(n: u64, room: &mut [u8], at: usize) -> usize
    requires { at + length (decimal n) ≤ length room.old }
    ensures next { result ≡ at + length (decimal n) }
    ensures room { room.new ≡ put_at at (decimal n) room.old }
{
    if n < 10 {
        room[at] = digit(n);
        return at + 1;
    }
    let end = write_number(n / 10, room, at);
    room[end] = digit(n % 10);
    end + 1
}

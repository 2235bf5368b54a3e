// For our own crates: i64 wrapped once, so that callers meet plain ℤ. A caller shows that the answer fits, by a bound of its size.
ghost use Rattle.std.specs.Prelude.{◌≡◌, ◌<◌, ◌^◌, pos, nat_abs, ◌+ℤ◌, ◌-ℤ◌, ◌*ℤ◌, ◌≤ℤ◌};
ghost use Rattle.std.specs.Int.Signed.{lt_z};

pub fn add(a: i64, b: i64) -> i64
    requires { nat_abs (a +ℤ b) < 2 ^ 63 }
    ensures { result ≡ a +ℤ b }
{
    a + b
}

pub fn sub(a: i64, b: i64) -> i64
    requires { nat_abs (a -ℤ b) < 2 ^ 63 }
    ensures { result ≡ a -ℤ b }
{
    a - b
}

pub fn mul(a: i64, b: i64) -> i64
    requires { nat_abs (a *ℤ b) < 2 ^ 63 }
    ensures { result ≡ a *ℤ b }
{
    a * b
}

pub fn lt(a: i64, b: i64) -> bool
    ensures { result ≡ lt_z a b }
{
    a < b
}

pub fn of_byte(x: u8) -> i64
    ensures { result ≡ pos x }
{
    x as i64
}

pub fn of_size(x: usize) -> i64
    requires { x < 2 ^ 63 }
    ensures { result ≡ pos x }
{
    x as i64
}

pub fn of_u64(x: u64) -> i64
    requires { x < 2 ^ 63 }
    ensures { result ≡ pos x }
{
    x as i64
}

pub fn to_u64(x: i64) -> u64
    requires { pos 0 ≤ℤ x }
    ensures { pos result ≡ x }
{
    x as u64
}

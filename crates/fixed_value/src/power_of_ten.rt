ghost use Rattle.std.specs.Prelude.{◌≡◌, ◌≤◌, ◌^◌};

/// A power of ten, up to 10 to the 21.
pub fn ten_to(exponent: u32) -> u128
    requires { exponent ≤ 21 }
    ensures value { result ≡ 10 ^ exponent }
    ensures least { 1 ≤ result }
    ensures most { result ≤ 1000000000000000000000 }
{
    10u128.pow(exponent)
}

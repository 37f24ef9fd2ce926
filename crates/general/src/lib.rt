// What every crate above may need of numbers: powers of two, binary digits and mirrored offsets.
#![tactic(auto)]

ghost use Rattle.std.specs.Prelude.{◌≡◌, ◌^◌, ◌<◌, negsuc, ◌-ℤ◌};
ghost use Rattle.general.specs.Digits.{Digits};

// inner: 2^n.
pub fn pow2(n: u32) -> u64
    requires { n < 64 }
    ensures { result ≡ 2 ^ n }
{
    1 << n
}

// inner: how many binary digits a number has, 0 for 0.
pub fn digit_count(n: u64) -> u32
    ensures { Digits n result }
{
    64 - u64::leading_zeros(n)
}

// inner: the offset of 2^b - 1 - B, by that of B, since the two add up to -1; 32 bits always hold it.
pub fn mirrored(entry: i32) -> i32
    ensures { result ≡ negsuc 0 -ℤ entry }
{
    -1 - entry
}

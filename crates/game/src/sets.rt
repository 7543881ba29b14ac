// Sets of at most 8 links as numbers: link i is closed where bit i is 1.
ghost use Rattle.std.specs.Prelude.{◌≡◌, ◌^◌, ◌<◌, ◌≤◌};
ghost use Rattle.game.specs.Sets.{shut_in, opened_in};

const POWERS: [usize; 9] = [1, 2, 4, 8, 16, 32, 64, 128, 256];

// 2 ^ i.
pub(crate) fn power(i: usize) -> usize
    requires { i ≤ 8 }
    ensures { (result ≡ 2 ^ i) × (0 < result) × (result ≤ 256) }
{
    POWERS[i]
}

// The set c with link i closed.
pub(crate) fn shut(k: usize, c: usize, i: usize) -> usize
    requires { (k ≤ 8) × (c < 2 ^ k) }
    ensures { (result ≡ shut_in k c i) × (result < 2 ^ k) }
{
    if k <= i {
        return c;
    }
    let p = power(i);
    if c / p % 2 == 0 {
        return c + p;
    }
    c
}

// The set c with link i opened.
pub(crate) fn opened(k: usize, c: usize, i: usize) -> usize
    requires { (k ≤ 8) × (c < 2 ^ k) }
    ensures { (result ≡ opened_in k c i) × (result < 2 ^ k) }
{
    if k <= i {
        return c;
    }
    let p = power(i);
    if c / p % 2 == 0 {
        return c;
    }
    c - p
}

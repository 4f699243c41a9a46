// A signed delay added to an unsigned time.
ghost use Rattle.std.specs.Prelude.{◌≡◌, ◌≤◌};
ghost use Rattle.spec_ask.specs.ask_delay.Delay.{delayed_of, delay_of, Near};

// The time t, d units later, earlier where d is below 0; None where it lies below 0.
pub fn delayed(t: u64, d: i64) -> Option<u64>
    requires { (t ≤ 68719476736) × Near d }
    ensures { result ≡ delayed_of t d }
{
    if d < 0 {
        let n = (0 - d) as u64;
        if t < n {
            return None;
        }
        return Some(t - n);
    }
    let n = d as u64;
    Some(t + n)
}

// The delay that try k takes: 0, 1, -1, 2, -2 and so on.
pub fn delay_at(k: u32) -> i64
    requires { k ≤ 12000 }
    ensures { result ≡ delay_of k }
{
    if k % 2 == 1 {
        i64::from(k / 2 + 1)
    } else {
        -i64::from(k / 2)
    }
}

// Whether a caption is lost under a try's delay, by its grades.
ghost use Rattle.std.specs.Prelude.{◌≡◌, ◌≤◌, length};
ghost use Rattle.spec_ask.specs.ask_delay.Delay.{delayed_of, delay_of};
ghost use Rattle.spec_ask.specs.ask_delay.Paint.{lost_by};

// A time under the delay of try k.
fn under(t: u64, k: u32) -> Option<u64>
    requires { (t ≤ 68719476736) × (k ≤ 12000) }
    ensures { result ≡ delayed_of t (delay_of k) }
{
    crate::moving::delayed(t, crate::moving::delay_at(k))
}

pub fn lost_at(grades: &[u8], start: u64, stop: u64, k: u32) -> bool
    requires { (length grades.now ≡ 12001) × (start ≤ 68719476736) × (stop ≤ 68719476736) × (k ≤ 12000) }
    ensures { result ≡ lost_by grades.now start stop (delay_of k) }
{
    match under(start, k) {
        None => true,
        Some(s) => match under(stop, k) {
            None => true,
            Some(e) => {
                let at = (s + 6000 - start) as usize;
                base::get_or(grades, at, 0) != 2
            }
        },
    }
}

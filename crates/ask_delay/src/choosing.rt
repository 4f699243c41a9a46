// The first of the tries that lose least.
ghost use Rattle.std.specs.Prelude.{◌≡◌, ◌≤◌, length};
ghost use Rattle.ask_delay.specs.Choice.{chosen_in, better_of};

// The place of the best try, what it loses, and how many were tried.
#[derive(Clone, Copy, Debug, PartialEq, Eq)]
pub struct Chosen {
    pub place: u32,
    pub loss: u32,
    pub tried: u32,
}

// One try more, which loses `loss`.
fn better(best: Chosen, loss: u32) -> Chosen
    requires { best.tried ≤ 12001 }
    ensures { result ≡ better_of best loss }
{
    let tried = best.tried + 1;
    if loss < best.loss {
        Chosen {
            place: best.tried,
            loss,
            tried,
        }
    } else {
        Chosen { tried, ..best }
    }
}

pub fn choose(losses: &[u32], tries: u32) -> Chosen
    requires { (length losses.now ≡ 12001) × (1 ≤ tries) × (tries ≤ 12001) }
    ensures { result ≡ chosen_in losses.now tries }
{
    let mut best = Chosen {
        place: 0,
        loss: losses[0],
        tried: 1,
    };
    for loss in &losses[1..tries as usize] {
        best = better(best, *loss);
    }
    best
}

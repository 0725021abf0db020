// "The signed shortest way round, positive when both are equal."
ghost use Rattle.std.specs.Prelude.{◌≡◌, ◌≤◌, ◌<◌};
ghost use Rattle.drive.specs.Ring.{MOST};
ghost use Rattle.drive.specs.Move.{Move, ahead};

// The move from a present position to a target.
pub(crate) fn move_between(ring: u32, present: u32, target: u32) -> i32
    requires { (ring ≤ MOST) × ((present < ring) × (target < ring)) }
    ensures { Move ring present target result }
{
    let forward = go_ahead(ring, present, target);
    let back = go_ahead(ring, target, present);
    if forward <= back {
        forward as i32
    } else {
        -(back as i32)
    }
}

// How far it is forward from one position to another.
fn go_ahead(ring: u32, from: u32, to: u32) -> u32
    requires { (ring ≤ MOST) × ((from < ring) × (to < ring)) }
    ensures { result ≡ ahead ring from to }
{
    if from <= to {
        to - from
    } else {
        to + ring - from
    }
}

//! How far back the steps look that a cursor has left.
ghost use Rattle.std.specs.Prelude.{take, All};
ghost use Rattle.stab_items.specs.Steps.{LooksWithin};

use stab_items::{Cursor, furthest_of_steps};

/// How far back the next steps look that a cursor has left, this many, or all if there are fewer.
pub(crate) fn window_of(cursor: &mut Cursor, count: usize) -> u32
    ensures within { All (LooksWithin result) (take count cursor.old.left) }
{
    let mut window = 0;
    let mut done = 0;
    'looking: while done < count {
        let Some(steps) = cursor.next_steps(count - done) else {
            return window;
        };
        window = furthest_of_steps(window, steps);
        done += steps.len();
    }
    window
}

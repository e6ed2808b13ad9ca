// The moves, in the levels of an area. LET copies one level up, handing back stores one cell in the level below; nothing else is copied.
ghost use Rattle.std.specs.Prelude.{◌≡◌, ◌≤◌, length};
ghost use Rattle.rules.specs.Moves.{hand_back, move};
ghost use Rattle.area.specs.Rows.{row_size};
ghost use Rattle.area.specs.Levels.{level_at, frames_of, control_of, Goes};
ghost use Rattle.area.specs.Binding.{Binds};

use crate::stand::{Next, Stand};
use limits::{Depth, Name};
use rules::effects::Move;
use values::value::Value;

// The levels follow the table of places.
const TABLE: usize = 2048;

const LEVEL: usize = 160;

// The sixteen cells of a level.
const CELLS: usize = 144;

// Behind the cells: the name that waits, the node that follows, the mode.
const NAME: usize = 144;

const BODY: usize = 145;

const MODE: usize = 147;

// Where a level lies.
pub fn level_at(d: Depth) -> usize
    ensures { result ≡ level_at d.frames }
{
    TABLE + d.frames as usize * LEVEL
}

// The name x of a level is bound to v. A name out of range binds nothing.
fn bind(x: Name, v: Value, d: Depth, w: &mut [u8])
    requires { row_size ≤ length w.old }
    ensures { Binds x v d.frames w.old w.new }
{
    if x.index >= Name::MAX {
        return;
    }
    let at = level_at(d);
    cells::store(Some(v), w, at + x.index as usize * cells::WIDTH);
}

// A value is handed back: the top frame is removed, its mode and bindings return with its name bound to v, and its body is next.
pub fn hand_back(v: Value, depth: Depth, w: &mut [u8]) -> Next
    requires { row_size ≤ length w.old }
    ensures { Goes result (hand_back v (frames_of w.old depth.frames)) w.old w.new }
{
    if depth.frames == 0 {
        return Next::Ends(v);
    }
    let below = Depth {
        frames: depth.frames - 1,
    };
    let at = level_at(below);
    let x = Name {
        index: w[at + NAME],
    };
    let body = words::load2(w, at + BODY);
    let mode = parties::bytes::load_set(w, at + MODE);
    bind(x, v, below, w);
    Next::On(Stand {
        node: body,
        mode,
        depth: below,
    })
}

// A frame is put down: the present level stays below with the name that waits, the node that follows and the mode; its copy is the next level.
pub fn put_down(x: Name, e1: u16, e2: u16, t: Stand, w: &mut [u8]) -> Next
    requires { row_size ≤ length w.old }
    ensures { Goes result (move (Move.Down x e1 e2) (control_of t w.old)) w.old w.new }
{
    let depth = t.depth;
    let mode = t.mode;
    let Some(deeper) = depth.deeper() else {
        return Next::Full;
    };
    let at = level_at(depth);
    w[at + NAME] = x.index;
    words::store2(w, at + BODY, e2);
    parties::bytes::store_set(w, at + MODE, mode);
    stretches::copy_within(w, at, at + LEVEL, CELLS);
    Next::On(Stand {
        node: e1,
        mode,
        depth: deeper,
    })
}

// The body of a function: of its bindings only name 0 is there, bound to v.
pub fn call(f: u16, v: Value, t: Stand, w: &mut [u8]) -> Next
    requires { row_size ≤ length w.old }
    ensures { Goes result (move (Move.Call f v) (control_of t w.old)) w.old w.new }
{
    let depth = t.depth;
    let mode = t.mode;
    let from = level_at(depth);
    let to = from + CELLS;
    stretches::zero(&mut w[from..to]);
    bind(Name { index: 0 }, v, depth, w);
    Next::On(Stand {
        node: f,
        mode,
        depth,
    })
}

// What a rule asks of control.
pub fn go(mv: Move, t: Stand, w: &mut [u8]) -> Next
    requires { row_size ≤ length w.old }
    ensures { Goes result (move mv (control_of t w.old)) w.old w.new }
{
    let depth = t.depth;
    let mode = t.mode;
    match mv {
        Move::Hand(v) => hand_back(v, depth, w),
        Move::Down(x, e1, e2) => put_down(x, e1, e2, t, w),
        Move::Goto(e) => Next::On(Stand {
            node: e,
            mode,
            depth,
        }),
        Move::Enter(m, e) => Next::On(Stand {
            node: e,
            mode: m,
            depth,
        }),
        Move::Call(f, v) => call(f, v, t, w),
    }
}

// What a room is lent in: 16-bit numbers, or bytes, two to a number, high byte first. The laws of writing are said once, over the
// form; here is how each holds one step.
ghost use Rattle.std.specs.Prelude.{ℕ, ◌+◌, List};
ghost use Rattle.calls.specs.Promise.{Form, as_words, as_bytes, RoomFits};
ghost use Rattle.calls.specs.Written.{Small, Roomy, Holds, StepPut};

use fewest::pairs::put;
use path::Taken;

pub trait Lent: Copy {
    ghost form: { Form };

    // The entries of a room as numbers, or as bytes.
    ghost entries: { List Self → List ℕ };

    // How many steps a room holds.
    fn steps(room: &[Self]) -> usize
        requires { RoomFits form (entries room.now) }
        ensures { Holds form result (entries room.now) };

    // Step i of a path.
    fn put_step(room: &mut [Self], i: usize, x: Taken)
        requires { Roomy form (i + 1) (entries room.old) × Small x }
        ensures { StepPut form i x (entries room.old) (entries room.new) };
}

// Three numbers a step.
impl Lent for u16 {
    ghost form = { as_words };

    ghost entries = { λ l. l };

    fn steps(room: &[u16]) -> usize {
        room.len() / 3
    }

    fn put_step(room: &mut [u16], i: usize, x: Taken) {
        let at = 3 * i;
        // `as`: the three are below 65,536 (`Small`), and try_from would have an error that never comes.
        room[at] = x.by as u16;
        room[at + 1] = x.over as u16;
        room[at + 2] = x.to as u16;
    }
}

// Three byte pairs a step.
impl Lent for u8 {
    ghost form = { as_bytes };

    ghost entries = { λ l. l };

    fn steps(room: &[u8]) -> usize {
        room.len() / 6
    }

    fn put_step(room: &mut [u8], i: usize, x: Taken) {
        let at = 3 * i;
        put(room, at, x.by);
        put(room, at + 1, x.over);
        put(room, at + 2, x.to);
    }
}

// The lines of a text: a refusal's, an answer's, a step's.
use crate::put::Text;
use calls::Answer;
use records::{NONE, Refusal, number};

// A line of numbers has at most so many bytes: a word of eight and two numbers, or one of four and three, with 20 digits a number.
pub const LINE_MOST: usize = 67;

// A step's line has at most so many: three numbers of five digits.
pub const STEP_MOST: usize = 18;

impl<const MOST: usize> Text<MOST> {
    ghost use Rattle.std.specs.Prelude.{◌+◌, ◌*◌, ◌≤◌, length};
    ghost use Rattle.printed.specs.Put.{Put, HasRoom};
    ghost use Rattle.printed.specs.Lines.{answer_word, refused_line, answer_line, triple_field, step_line, step_lines, line_most, step_most};

    #[tactic(auto, using(crate::proofs::Lengths::in_a_line), unfolding(crate::specs::Lines::refused_line, crate::specs::Lines::line_most))]
    pub fn put_refused(&mut self, refusal: Refusal)
        requires { HasRoom line_most self.old }
        ensures { Put (refused_line refusal) self.old self.new }
    {
        self.put_word(b"refused ");
        self.put_field(number(refusal.reason) as usize, b' ');
        self.put_field(refusal.place, b'\n');
    }

    fn put_answer_word(&mut self, yes: bool)
        requires { HasRoom (length (answer_word yes)) self.old }
        ensures { Put (answer_word yes) self.old self.new }
    {
        self.put_word(if yes { b"yes " } else { b"no " });
    }

    #[tactic(auto, using(crate::proofs::Lengths::in_a_line), unfolding(crate::specs::Lines::answer_line, crate::specs::Lines::line_most))]
    pub fn put_answer(&mut self, answer: Answer, ceiling: usize)
        requires { HasRoom line_most self.old }
        ensures line { Put (answer_line answer.yes answer.figure ceiling answer.steps) self.old self.new }
        ensures within { self.new.count ≤ self.old.count + line_most }
    {
        self.put_answer_word(answer.yes);
        self.put_field(answer.figure, b' ');
        self.put_field(ceiling, b' ');
        self.put_field(answer.steps, b'\n');
    }

    // A step's triple; self has none, which document 01's room holds as 65,535.
    #[tactic(auto, unfolding(crate::specs::Lines::triple_field, meaning::specs::Limits::none))]
    fn put_triple(&mut self, triple: usize)
        requires { HasRoom (length (triple_field triple)) self.old }
        ensures { Put (triple_field triple) self.old self.new }
    {
        if triple == NONE {
            self.put_word(b"- ");
        } else {
            self.put_field(triple, b' ');
        }
    }

    #[tactic(auto, using(crate::proofs::Lengths::in_a_step), unfolding(crate::specs::Lines::step_line, crate::specs::Lines::step_most))]
    fn put_step(&mut self, by: u16, over: u16, to: u16)
        requires { HasRoom step_most self.old }
        ensures line { Put (step_line by over to) self.old self.new }
        ensures within { self.new.count ≤ self.old.count + step_most }
    {
        self.put_field(usize::from(by), b' ');
        self.put_triple(usize::from(over));
        self.put_field(usize::from(to), b'\n');
    }

    // A line for each of the first steps that a room holds.
    pub fn put_steps(&mut self, room: &[u16], steps: usize)
        requires room { HasRoom (step_most * steps) self.old }
        requires held { 3 * steps ≤ length room.now }
        ensures { Put (step_lines steps room.now) self.old self.new }
    {
        let (each, _) = room.as_chunks::<3>();
        for &[by, over, to] in &each[..steps] {
            self.put_step(by, over, to);
        }
    }
}

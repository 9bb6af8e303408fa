// Reading the two lists from the bytes of the input.
ghost use Rattle.std.specs.Prelude.{◌≡◌, ℕ, ◌+◌, ◌^◌, ◌<◌, List, ◌∷◌, Ok, MatchResult, OnOk};
ghost use Rattle.frontiers.specs.Input.{with_time, read_from, input_says};
ghost use Rattle.frontiers.specs.Reading.{told, Faulty};
ghost use Rattle.lines.specs.Values.{time_value};

use crate::fault::Fault;
use crate::input::{Expected, Side, read_line};
use lines::{LineReader, Time};
use std::alloc::Global;

// The two lists, in the order of their lines.
#[derive(Drop)]
pub struct Input {
    pub first: Vec<Time>,
    pub second: Vec<Time>,
    // how many lines were read: what a line adds and its number are one step of the meaning
    pub lines: usize,
}

impl Input {
    // Puts a time last in its list.
    #[tactic(auto, using(std::proofs::lemmas::List::map_push))]
    fn push(&mut self, side: Side, time: Time) -> Result<(), Fault>
        requires { self.old.lines + 1 < 2 ^ 64 }
        ensures { MatchResult result (λ _. told self.new ≡ with_time side (time_value time) (told self.old)) (λ f. f ≡ Fault.Memory) }
    {
        match side {
            Side::First => self.first.push(time)?,
            Side::Second => self.second.push(time)?,
        }
        self.lines += 1;
        Ok(())
    }

    // Adds the time of one line more.
    fn add_line(&mut self, line: &[u8]) -> Result<(), Fault>
        requires { self.old.lines + 1 < 2 ^ 64 }
        ensures count { OnOk result (self.new.lines ≡ self.old.lines + 1) }
        ensures said { (rest : List (List ℕ)) → MatchResult result (λ _. read_from (told self.old) (line.now ∷ rest) ≡ read_from (told self.new) rest) (λ f. Faulty f (read_from (told self.old) (line.now ∷ rest))) }
    {
        match read_line(line) {
            Ok((side, time)) => self.push(side, time),
            Err(expected) => Err(Fault::Malformed(self.lines + 1, expected)),
        }
    }
}

// Reads every line, or names the first malformed one.
pub fn read(heap: Global, bytes: &[u8]) -> Result<Input, Fault>
    ensures { MatchResult result (λ i. input_says bytes.now ≡ Ok (told i)) (λ f. Faulty f (input_says bytes.now)) }
{
    let mut input = Input {
        first: Vec::new(heap),
        second: Vec::new(heap),
        lines: 0,
    };
    let mut lines = LineReader::new(bytes);
    while let Some(line) = lines.next_line() {
        input.add_line(line)?;
    }
    if !lines.is_done() {
        return Err(Fault::Malformed(input.lines + 1, Expected::End));
    }
    Ok(input)
}

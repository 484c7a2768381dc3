//! Worlds and the reference model beside them over lines of events.
use crate::text::{answer_text, bytes, event_of, number};
use bpf_model::{Answer, CtxBytes, Event, KeyBytes, MapId, ProgId, RunId, Stat};
use reference_model::Machine;
use std::alloc::{AllocError, Global};
use std::fmt::Write;
use world::{Loaded, World};

/// The reference model, and beside it a world and maybe its copy; none where the model alone has a program that is refused. And
/// programs that the model has from the start, and the world once they are loaded.
#[derive(Drop)]
pub struct Pair {
    pub alloc: Global,
    pub model: Machine,
    pub worlds: Vec<World>,
    pub later: Vec<Loaded>,
}

impl Pair {
    /// What each world answers.
    fn of_worlds(&mut self, event: &Event) -> Result<Vec<Answer>, AllocError> {
        let mut answers = Vec::new(self.alloc);
        for world in &mut self.worlds {
            answers.push(world.apply(event))?;
        }
        Ok(answers)
    }

    /// The reference model's answer, and behind it each answer of a world that is another.
    fn answer(&mut self, event: Event) -> Result<String, AllocError> {
        let answers = self.of_worlds(&event)?;
        let mut text = answer_text(self.alloc, &self.model.apply(event))?;
        for answer in answers {
            let other = answer_text(self.alloc, &Ok(answer))?;
            if other.as_str() != text.as_str() {
                text.push_str(", and a world: ")?;
                text.push_str(&other)?;
            }
        }
        Ok(text)
    }

    /// The last answer of at most so many steps, up to the exit.
    fn steps(&mut self, run: RunId, count: usize) -> Result<String, AllocError> {
        let mut last = self.answer(Event::Step { run })?;
        for _ in 1..count {
            if last.as_str() == "moved" {
                last = self.answer(Event::Step { run })?;
            }
        }
        Ok(last)
    }

    /// Whether all count the same.
    fn counts_agree(&self, stat: &Stat) -> bool {
        for world in &self.worlds {
            if world.stat() != *stat {
                return false;
            }
        }
        true
    }

    /// The counts.
    fn counts(&self) -> Result<String, AllocError> {
        let stat = self.model.stat();
        if !self.counts_agree(&stat) {
            return String::from_str(self.alloc, "the counts differ");
        }
        let Stat {
            linked,
            unlinked,
            given,
            worn,
            runs,
            open,
        } = stat;
        format!(in self.alloc;
            "linked {linked} unlinked {unlinked} given {given} worn {worn} runs {runs} open {open}"
        )
    }

    /// The element with the least key above this one of a map, or above none, in the last world.
    fn above(&self, map: MapId, key: &KeyBytes) -> Result<String, AllocError> {
        let bound = if key.is_empty() { None } else { Some(key) };
        let found = match self.worlds.last() {
            Some(world) => world.next_above(map, bound),
            None => None,
        };
        match found {
            Some((key, value)) => {
                let key = hex::encode(self.alloc, key.as_slice())?;
                let value = hex::encode(self.alloc, value.as_slice())?;
                format!(in self.alloc; "{key} {value}")
            }
            None => String::from_str(self.alloc, "none"),
        }
    }

    /// The exit value of a run, if it has ended and was started with this program on this context, in the last world.
    fn exit_of(&self, run: RunId, prog: ProgId, ctx: &CtxBytes) -> Option<u64> {
        let world = self.worlds.last()?;
        let program = world.program(prog)?;
        world.exit_of(run, &program.verified, ctx)
    }

    /// A copy of the world goes along from now on.
    fn copy(&mut self) -> Result<String, AllocError> {
        if let Some(world) = self.worlds.last() {
            let copy = world.copy(self.alloc)?;
            self.worlds.push(copy)?;
        }
        String::from_str(self.alloc, "ok")
    }

    /// The world goes, and its copy stays.
    fn part(&mut self) -> Result<String, AllocError> {
        if self.worlds.len() > 1 {
            let _ = self.worlds.swap_remove(0);
        }
        String::from_str(self.alloc, "ok")
    }

    /// Adds the last of the programs that the model has already to the last world. Its number.
    fn load(&mut self) -> Option<usize> {
        let program = self.later.pop()?;
        let world = self.worlds.last_mut()?;
        match world.load(program) {
            Ok(number) => Some(number.index()),
            Err(_) => None,
        }
    }

    /// What is said to words that are no event.
    fn asked(&mut self, words: &[&str]) -> Result<String, AllocError> {
        match words {
            ["stat"] => self.counts(),
            ["step", run, count] => self.steps(RunId::new(number(run)), number(count)),
            ["above", map, key] => self.above(MapId::new(number(map)), &bytes(key)),
            ["exit_of", run, prog, ctx] => {
                let (run, prog) = (RunId::new(number(run)), ProgId::new(number(prog)));
                format!(in self.alloc; "{:?}", self.exit_of(run, prog, &bytes(ctx)))
            }
            ["load"] => format!(in self.alloc; "{:?}", self.load()),
            ["copy"] => self.copy(),
            ["part"] => self.part(),
            _ => String::from_str(self.alloc, "no words"),
        }
    }

    /// The answer to a line: of an event, of steps of a run, or what is asked of a world outside of events.
    pub fn say(&mut self, line: &str) -> Result<String, AllocError> {
        let words: Vec<&str> = line.split(' ').collect(self.alloc)?;
        match event_of(&words) {
            Some(event) => self.answer(event),
            None => self.asked(&words),
        }
    }

    /// The lines, each an event, ` = ` and its answer, with the answers that are given.
    pub fn replay(&mut self, lines: &str) -> Result<String, AllocError> {
        let mut text = String::new(self.alloc);
        for line in lines.lines() {
            let (event, _) = line.split_once(" = ").unwrap_or((line, ""));
            let answer = self.say(event)?;
            writeln!(text, "{event} = {answer}")?;
        }
        Ok(text)
    }
}
